// Which lists of entries are runs.

ghost use Rattle.std.specs.Prelude.{◌≡◌, ◌↔◌, [], ◌∷◌, List, IfOk, IsTrue, OnOk};
ghost use Rattle.run_journal.specs.declared.answer.Answer.{Answer as AnswerView};
ghost use Rattle.run_journal.specs.Made.{answer_of};
ghost use Rattle.plain_judge.specs.Asked.{IsNext};
ghost use Rattle.spec_table.specs.Tables.{table_spec};
ghost use Rattle.stmt_exec.specs.Standing.{rest};
ghost use Rattle.vdm_meaning.specs.Main.{main_code};
ghost use Rattle.vdm_meaning.specs.Runs.{IsRun};
ghost use Rattle.expr_tree.specs.View.{view_of};

use crate::asked::is_asked_for;
use crate::given::answer_of;
use expr_tree::Expr;
use journal_entries::made_where_fits;
use plain_state::is_legal_at_object;
use run_journal::{Entry, EntryList, Thread};
use spec_table::ClassTable;
use std::alloc::Global;
use stmt_exec::Machine;
use vdm_kinds::OutOfMemory;
use vdm_names::Names;

/// Whether the entries are a run of the table's specification and the expression, whose threads have this many units each. The names are
/// those of the texts.
pub fn is_run(
    alloc: Global,
    names: &Names,
    table: &ClassTable,
    tree: &Expr,
    units: u64,
    entries: &EntryList,
) -> Result<bool, OutOfMemory>
    ensures { IfOk result (λ b. IsTrue b ↔ IsRun names.now (table_spec table.now) (view_of tree.now) units entries.now) }
{
    let mut machine = Machine::main(alloc, names, table, tree, units)?;
    are_legal(
        alloc,
        names,
        table,
        tree,
        units,
        &mut machine,
        entries.as_slice(),
    )
}

/// Whether each entry is legal behind those before it; the machine is main's, at its beginning.
fn are_legal(
    alloc: Global,
    names: &Names,
    table: &ClassTable,
    tree: &Expr,
    units: u64,
    machine: &mut Machine<'_>,
    entries: &[Entry],
) -> Result<bool, OutOfMemory>
    requires { (answers : List AnswerView) → rest machine.old answers ≡ main_code names.now (table_spec table.now) (view_of tree.now) units answers }
    ensures { IfOk result (λ b. IsTrue b ↔ IsRun names.now (table_spec table.now) (view_of tree.now) units entries.now) }
{
    // By this law the answer fits where the entry is made of it.
    made_where_fits();
    for (index, entry) in entries.iter().enumerate() {
        if !takes(
            alloc,
            table,
            Thread::Main,
            &entries[..index],
            machine,
            entry,
        )? {
            return Ok(false);
        }
    }
    Ok(true)
}

/// Whether the entry may stand next: it is legal at its object behind those before it, and the thread asks for it. Then the
/// thread goes on with its answer.
fn takes(
    alloc: Global,
    table: &ClassTable,
    thread: Thread,
    before: &[Entry],
    machine: &mut Machine<'_>,
    entry: &Entry,
) -> Result<bool, OutOfMemory>
    ensures next { IfOk result (λ b. IsTrue b ↔ IsNext (table_spec table.now) thread before.now (rest machine.old []) entry.now) }
    ensures goes_on { IfOk result (λ b. IsTrue b
        → (answers : List AnswerView)
        → rest machine.new answers ≡ rest machine.old (answer_of entry.now ∷ answers)) }
{
    if !is_next(alloc, table, thread, before, machine, entry)? {
        return Ok(false);
    }
    let answer = answer_of(alloc, entry)?;
    machine.answer(alloc, answer)?;
    Ok(true)
}

/// Whether the entry may stand next, where the machine of the thread stands so.
fn is_next(
    alloc: Global,
    table: &ClassTable,
    thread: Thread,
    before: &[Entry],
    machine: &mut Machine<'_>,
    entry: &Entry,
) -> Result<bool, OutOfMemory>
    ensures next { IfOk result (λ b. IsTrue b ↔ IsNext (table_spec table.now) thread before.now (rest machine.old []) entry.now) }
    ensures kept { OnOk result (machine.new ≡ machine.old) }
{
    if !is_legal_at_object(alloc, table, before, entry)? {
        return Ok(false);
    }
    is_asked_for(alloc, thread, machine, entry)
}
