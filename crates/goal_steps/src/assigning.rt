// Assignments, as they begin.

ghost use Rattle.std.specs.Prelude.{◌≡◌, ◌≤◌, ◌++◌, [], ◌∷◌, map, option_map, IfOk};
ghost use Rattle.abstract_syntax.specs.Classes.{SpecTree};
ghost use Rattle.expr_tree.specs.View.{boxed_view};
ghost use Rattle.vdm_tree.specs.StmtView.{target_step_view};
ghost use Rattle.spec_table.specs.Tables.{table_spec};
ghost use Rattle.node_meaning.specs.Envs.{Locals};
ghost use Rattle.node_meaning.specs.Matching.{exprs_of};
ghost use Rattle.node_meaning.specs.Strict.{collected};
ghost use Rattle.node_meaning.specs.Tasks.{evaluated, with_value};
ghost use Rattle.stmt_meaning.specs.Targets.{assigned as assigned_plan, goal_changed as changed_plan, goal_given, goal_typed, indices, stored as stored_plan};
ghost use Rattle.eval_data.specs.Parts.{here_of, flow_of};
ghost use Rattle.step_data.specs.Actions.{action_code, height};
ghost use Rattle.step_data.specs.Goals.{goal_view, kept_then};
ghost use Rattle.goal_steps.specs.Beginnings.{Begun};

use crate::indexing::evaluating;
use crate::parts::first_part;
use crate::storing::store_tested;
use crate::testing::goal_tested;
use eval_data::{Flow, Here};
use flow_values::{Came, value_in};
use spec_table::ClassTable;
use std::alloc::Global;
use step_data::{Action, Assigning, Goal, Kept, Pending, Task, Waiting};
use vdm_kinds::{Name, OutOfMemory, Place, RunFault};
use vdm_tree::{Expr, TargetStep};
use vdm_values::{Slot, Value};

/// An assignment by the statement at the place, with the steps into what it writes to.
pub fn assign<'t>(
    alloc: Global,
    here: Here<'t>,
    goal: Option<Goal<'t>>,
    steps: &'t [TargetStep],
    value: &'t Box<Expr>,
    place: Place,
) -> Result<Action<'t>, OutOfMemory>
    ensures same { IfOk result (λ a. (spec : SpecTree) (locals : Locals) → action_code spec locals a ≡ assigned_plan spec (here_of here.entry) place (option_map goal_view goal.entry) (map target_step_view steps.now) (boxed_view value.now) locals) }
    ensures falls { IfOk result (λ a. height a ≤ 1) }
{
    let Some(goal) = goal else {
        return Ok(Action::Fail(RunFault::Undefined, place));
    };
    match steps {
        [] => {
            let waiting = Waiting::Assign(here, goal, place);
            Ok(Action::Part(Task::Expr(here, value), Pending { waiting }))
        }
        [_, ..] => into_goal(alloc, here, goal, steps, value, Kept::Stored, place),
    }
}

/// What one variable of several gets.
pub(crate) fn joined<'t>(
    alloc: Global,
    here: Here<'t>,
    goal: Goal<'t>,
    steps: &'t [TargetStep],
    value: &'t Box<Expr>,
    kept: Kept<'t>,
    place: Place,
) -> Result<Action<'t>, OutOfMemory>
    ensures same { IfOk result (λ a. (spec : SpecTree) (locals : Locals) → action_code spec locals a ≡ goal_given spec (here_of here.entry) place (goal_view goal.entry) (map target_step_view steps.now) (boxed_view value.now) (kept_then spec (here_of here.entry) place (goal_view goal.entry) kept.entry) locals) }
    ensures falls { IfOk result (λ a. height a ≤ 1) }
{
    match steps {
        [] => whole_goal(alloc, here, goal, value, kept, place),
        [_, ..] => into_goal(alloc, here, goal, steps, value, kept, place),
    }
}

/// A variable as a whole gets the value.
fn whole_goal<'t>(
    alloc: Global,
    here: Here<'t>,
    goal: Goal<'t>,
    value: &'t Box<Expr>,
    kept: Kept<'t>,
    place: Place,
) -> Result<Action<'t>, OutOfMemory>
    ensures same { IfOk result (λ a. (spec : SpecTree) (locals : Locals) → action_code spec locals a ≡ evaluated (here_of here.entry) locals (boxed_view value.now) place (goal_typed spec (here_of here.entry) place (goal_view goal.entry) (kept_then spec (here_of here.entry) place (goal_view goal.entry) kept.entry))) }
    ensures falls { IfOk result (λ a. height a ≤ 1) }
{
    let assigning = begun(alloc, here, goal, &[], kept, place)?;
    Ok(Action::Part(
        Task::Expr(here, value),
        Pending {
            waiting: Waiting::Join(assigning),
        },
    ))
}

/// The part of a variable to which the steps lead gets the value.
fn into_goal<'t>(
    alloc: Global,
    here: Here<'t>,
    goal: Goal<'t>,
    steps: &'t [TargetStep],
    value: &'t Box<Expr>,
    kept: Kept<'t>,
    place: Place,
) -> Result<Action<'t>, OutOfMemory>
    ensures same { IfOk result (λ a. (spec : SpecTree) (locals : Locals) → action_code spec locals a ≡ collected (here_of here.entry) place (exprs_of (indices (map target_step_view steps.now) ++ boxed_view value.now ∷ [])) [] (changed_plan spec (here_of here.entry) place (goal_view goal.entry) (map target_step_view steps.now) (kept_then spec (here_of here.entry) place (goal_view goal.entry) kept.entry)) locals) }
    ensures falls { IfOk result (λ a. height a ≤ 1) }
{
    let assigning = begun(alloc, here, goal, steps, kept, place)?;
    Ok(evaluating(assigning, first_part(steps, value)))
}

/// Of an assignment no value came yet.
fn begun<'t>(
    alloc: Global,
    here: Here<'t>,
    goal: Goal<'t>,
    steps: &'t [TargetStep],
    kept: Kept<'t>,
    place: Place,
) -> Result<Box<Assigning<'t>>, OutOfMemory>
    ensures { IfOk result (λ a. Begun a.value here.entry place goal.entry steps.entry kept.entry) }
{
    let assigning = Assigning {
        here,
        place,
        goal,
        steps,
        left: &[],
        value: None,
        done: Vec::new(alloc),
        kept,
    };
    Ok(Box::new(alloc, assigning)?)
}

/// What came is assigned, where it is a value.
pub fn assign_value<'t>(
    alloc: Global,
    table: &'t ClassTable,
    locals: &mut Vec<(Name, Slot)>,
    here: Here<'t>,
    goal: Goal<'t>,
    place: Place,
    flow: Flow,
) -> Result<Action<'t>, OutOfMemory>
    ensures same { IfOk result (λ a. action_code (table_spec table.now) locals.new.items a ≡ with_value place (goal_typed (table_spec table.now) (here_of here.entry) place (goal_view goal.entry) (stored_plan place (goal_view goal.entry))) (flow_of flow locals.old.items)) }
    ensures falls { IfOk result (λ a. height a ≤ 2) }
{
    match value_in(flow) {
        Came::Is(value) => value_assigned(alloc, table, locals, here, goal, place, value),
        Came::Nothing => Ok(Action::Fail(RunFault::Undefined, place)),
        Came::Exits(value, from) => Ok(Action::Finish(Flow::Exited(value, from))),
    }
}

fn value_assigned<'t>(
    alloc: Global,
    table: &'t ClassTable,
    locals: &mut Vec<(Name, Slot)>,
    here: Here<'t>,
    goal: Goal<'t>,
    place: Place,
    value: Value,
) -> Result<Action<'t>, OutOfMemory>
    ensures same { IfOk result (λ a. action_code (table_spec table.now) locals.new.items a ≡ goal_typed (table_spec table.now) (here_of here.entry) place (goal_view goal.entry) (stored_plan place (goal_view goal.entry)) value locals.old.items) }
    ensures falls { IfOk result (λ a. height a ≤ 2) }
{
    let tested = goal_tested(alloc, table, locals, here, goal, place, value)?;
    store_tested(alloc, locals, goal, place, tested)
}
