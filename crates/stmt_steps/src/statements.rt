// What each statement does.

ghost use Rattle.std.specs.Prelude.{◌≡◌, ◌≤◌, IfOk, length, option_map};
ghost use Rattle.abstract_syntax.specs.Classes.{SpecTree};
ghost use Rattle.abstract_syntax.specs.Statements.{one_stmt_branch};
ghost use Rattle.expr_tree.specs.View.{bind_view, boxed_view};
ghost use Rattle.node_meaning.specs.Envs.{Locals};
ghost use Rattle.node_meaning.specs.Tasks.{evaluated};
ghost use Rattle.stmt_meaning.specs.Blocks.{alternatives, let_be_body};
ghost use Rattle.stmt_meaning.specs.Statements.{branches_of, stmt_plan};
ghost use Rattle.stmt_meaning.specs.Targets.{assigned, goal_of, target_steps as target_steps_of};
ghost use Rattle.vdm_tree.specs.StmtView.{boxed_stmt, maybe_stmt, stmt_view, target_view};
ghost use Rattle.spec_table.specs.Tables.{table_spec};
ghost use Rattle.eval_data.specs.Parts.{here_of};
ghost use Rattle.step_data.specs.Actions.{action_code, height};
ghost use Rattle.step_data.specs.Declarations.{declared_of};
ghost use Rattle.step_data.specs.Meetings.{cases_left};
ghost use Rattle.step_data.specs.Parts.{branches_left};

use crate::leaving::{exits, returns};
use crate::looping::{always, for_numbers, for_sequence, for_set, tixe, trap};
use crate::threads::{start_all_of, start_of};
use eval_data::{Flow, Here};
use expr_tree::Bind;
use flow_steps::sequence;
use goal_steps::{assign, assign_together, block, goal_of, target_steps};
use meet_steps::{definitions, only_definition};
use search_steps::finding;
use spec_table::ClassTable;
use std::alloc::Global;
use step_data::{Action, Declared, ForLoop, Pending, Round, Task, Waiting};
use vdm_kinds::{Name, OutOfMemory, Place, RunFault};
use vdm_tree::{Expr, Stmt, StmtBranch, StmtCase, Target};
use vdm_values::Slot;

/// What a statement does, among these local variables.
pub fn statement<'t>(
    alloc: Global,
    table: &'t ClassTable,
    locals: &mut Vec<(Name, Slot)>,
    declared: &Declared<'t>,
    here: Here<'t>,
    tree: &'t Stmt,
) -> Result<Action<'t>, OutOfMemory>
    ensures same { IfOk result (λ a. action_code (table_spec table.now) locals.new.items a ≡ stmt_plan (table_spec table.now) (here_of here.entry) (declared_of declared.now) locals.old.items (stmt_view tree.now)) }
    ensures falls { IfOk result (λ a. height a ≤ 2) }
{
    match tree {
        Stmt::Block(dcls, statements, _) => {
            block(alloc, locals, here, dcls.as_slice(), statements.as_slice())
        }
        Stmt::Assign(target, value, place) => {
            assignment(alloc, table, declared, here, target, value, *place)
        }
        Stmt::AssignTogether(assignments, place) => {
            assign_together(alloc, table, here, assignments.as_slice(), *place)
        }
        Stmt::Call(application, _) => {
            Ok(Action::Part(
                Task::Call(here, application),
                Pending {
                    waiting: Waiting::Called,
                },
            ))
        }
        Stmt::Return(value, place) => Ok(returns(here, value, *place)),
        Stmt::Exit(value, place) => Ok(exits(here, value, *place)),
        Stmt::Let(defined, body, place) => {
            definitions(alloc, here, defined.as_slice(), body, locals.len(), *place)
        }
        Stmt::LetBe(bind, condition, body, place) => {
            let_be(alloc, here, bind, condition, body, locals.len(), *place)
        }
        Stmt::Def(pattern, value, body, place) => {
            only_definition(alloc, here, pattern, value, body, locals.len(), *place)
        }
        Stmt::If(condition, body, elseifs, otherwise, place) => {
            Ok(if_then(here, condition, body, elseifs.as_slice(), otherwise, *place))
        }
        Stmt::Cases(subject, cases, others, place) => {
            Ok(cases_of(
                here,
                subject,
                cases.as_slice(),
                others,
                locals.len(),
                *place,
            ))
        }
        Stmt::While(condition, body, place) => {
            Ok(Action::Round(here, Round::While(condition, body, *place)))
        }
        Stmt::ForNumbers(name, _, first, last, by, body, place) => {
            let rest = ForLoop {
                name: *name,
                last,
                by,
                body,
                place: *place,
            };
            Ok(for_numbers(here, first, rest))
        }
        Stmt::ForSet(pattern, set, body, place) => { Ok(for_set(here, pattern, set, body, *place)) }
        Stmt::ForSequence(pattern, items, body, place) => {
            Ok(for_sequence(here, pattern, items, body, *place))
        }
        Stmt::Trap(pattern, handler, body, place) => {
            Ok(trap(here, pattern, handler, body, *place, locals.len()))
        }
        Stmt::Tixe(handlers, body, place) => {
            Ok(tixe(here, handlers.as_slice(), body, *place, locals.len()))
        }
        Stmt::Always(last, body, _) => Ok(always(here, last, body, locals.len())),
        Stmt::Parallel(statements, _) => {
            let count = locals.len();
            Ok(sequence(locals, here, statements.as_slice(), count))
        }
        Stmt::Start(object, place) => Ok(start_of(here, object, *place)),
        Stmt::StartList(objects, place) => Ok(start_all_of(here, objects, *place)),
        Stmt::Skip(_) => Ok(Action::Finish(Flow::Next)),
        Stmt::Error(place) => Ok(Action::Fail(RunFault::Undefined, *place)),
    }
}

/// `target := value`
fn assignment<'t>(
    alloc: Global,
    table: &'t ClassTable,
    declared: &Declared<'t>,
    here: Here<'t>,
    target: &'t Target,
    value: &'t Box<Expr>,
    place: Place,
) -> Result<Action<'t>, OutOfMemory>
    ensures same { IfOk result (λ a. (locals : Locals) → action_code (table_spec table.now) locals a ≡ assigned (table_spec table.now) (here_of here.entry) place (goal_of (table_spec table.now) (here_of here.entry) (declared_of declared.now) (target_view target.now)) (target_steps_of (target_view target.now)) (boxed_view value.now) locals) }
    ensures falls { IfOk result (λ a. height a ≤ 1) }
{
    let goal = goal_of(table, here, declared, target)?;
    assign(alloc, here, goal, target_steps(target), value, place)
}

/// `let bind be st condition in body`: the search, and behind it the statement among what it bound, before which so many locals stand.
fn let_be<'t>(
    alloc: Global,
    here: Here<'t>,
    bind: &'t Box<Bind>,
    condition: &'t Option<Box<Expr>>,
    body: &'t Box<Stmt>,
    count: usize,
    place: Place,
) -> Result<Action<'t>, OutOfMemory>
    ensures same { IfOk result (λ a. (spec : SpecTree) (locals : Locals) → count ≡ length locals → action_code spec locals a ≡ let_be_body spec (here_of here.entry) place (bind_view bind.now.value) (option_map boxed_view condition.now) (boxed_stmt body.now) locals) }
    ensures falls { IfOk result (λ a. height a ≤ 1) }
{
    let (set, frame) = finding(alloc, here, place, bind, condition)?;
    Action::fit(alloc, here, set, frame, Waiting::Found(here, body, count))
}

/// `if condition then body elseif .. else otherwise`
fn if_then<'t>(
    here: Here<'t>,
    condition: &'t Box<Expr>,
    body: &'t Box<Stmt>,
    elseifs: &'t [StmtBranch],
    otherwise: &'t Option<Box<Stmt>>,
    place: Place,
) -> Action<'t>
    ensures same { (spec : SpecTree) (locals : Locals) → action_code spec locals result ≡ branches_of (here_of here.entry) place (one_stmt_branch (boxed_view condition.entry.now) (boxed_stmt body.entry.now) (branches_left elseifs.entry.now)) (maybe_stmt otherwise.entry.now) locals }
    ensures falls { height result ≤ 1 }
{
    let waiting = Waiting::Branches(here, body, elseifs, otherwise, place);
    Action::Part(Task::Expr(here, condition), Pending { waiting })
}

/// `cases subject: .. end`, among so many locals
fn cases_of<'t>(
    here: Here<'t>,
    subject: &'t Box<Expr>,
    cases: &'t [StmtCase],
    others: &'t Option<Box<Stmt>>,
    count: usize,
    place: Place,
) -> Action<'t>
    ensures same { (spec : SpecTree) (locals : Locals) → action_code spec locals result ≡ evaluated (here_of here.entry) locals (boxed_view subject.entry.now) place (alternatives spec (here_of here.entry) place count (cases_left cases.entry.now) (maybe_stmt others.entry.now)) }
    ensures falls { height result ≤ 1 }
{
    let waiting = Waiting::Subject(here, cases, others, count, place);
    Action::Part(Task::Expr(here, subject), Pending { waiting })
}
