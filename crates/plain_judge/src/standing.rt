// Where a thread stands after its answers.

ghost use Rattle.std.specs.Prelude.{◌≡◌, [], ◌∷◌, List, IfOk, OnOk};
ghost use Rattle.run_journal.specs.declared.answer.Answer.{Answer as AnswerView};
ghost use Rattle.plain_judge.specs.Standings.{StaysOver, stands};
ghost use Rattle.spec_table.specs.Tables.{table_spec};
ghost use Rattle.stmt_exec.specs.Standing.{rest};
ghost use Rattle.vdm_meaning.specs.Main.{main_code};
ghost use Rattle.expr_tree.specs.View.{view_of};

use expr_tree::Expr;
use run_journal::{Answer, AnswerList, Question};
use spec_table::ClassTable;
use std::alloc::Global;
use stmt_exec::Machine;
use vdm_kinds::OutOfMemory;
use vdm_names::Names;

/// Where a thread stands.
#[derive(Drop)]
pub enum Standing {
    /// It needs the answer to this question.
    Asks(Question),
    /// It asks nothing more.
    Over,
}

/// Where main of the table's specification stands after these answers, with this many units and the names of the texts. What it is
/// given behind its end it leaves.
pub fn next_question(
    alloc: Global,
    names: &Names,
    table: &ClassTable,
    tree: &Expr,
    units: u64,
    answers: AnswerList,
) -> Result<Standing, OutOfMemory>
    ensures { IfOk result (λ s. stands s ≡ main_code names.now (table_spec table.now) (view_of tree.now) units answers) }
{
    let mut machine = Machine::main(alloc, names, table, tree, units)?;
    standing_after(alloc, &mut machine, answers)
}

/// Where the thread of the machine stands after these answers.
fn standing_after(
    alloc: Global,
    machine: &mut Machine<'_>,
    answers: AnswerList,
) -> Result<Standing, OutOfMemory>
    requires { StaysOver (rest machine.old) }
    ensures { IfOk result (λ s. stands s ≡ rest machine.old answers) }
{
    for answer in answers.into_vec() {
        give(alloc, machine, answer)?;
    }
    standing_at(alloc, machine)
}

/// Gives the machine the answer, unless its thread is over.
fn give(alloc: Global, machine: &mut Machine<'_>, answer: Answer) -> Result<(), OutOfMemory>
    requires { StaysOver (rest machine.old) }
    ensures { OnOk result ((answers : List AnswerView) → rest machine.new answers ≡ rest machine.old (answer ∷ answers)) }
{
    if machine.over() {
        return Ok(());
    }
    machine.answer(alloc, answer)
}

/// Where the thread of the machine stands.
fn standing_at(alloc: Global, machine: &mut Machine<'_>) -> Result<Standing, OutOfMemory>
    ensures { IfOk result (λ s. stands s ≡ rest machine.old []) }
{
    if machine.over() {
        return Ok(Standing::Over);
    }
    Ok(Standing::Asks(machine.next(alloc)?))
}
