// Several assignments at once.

ghost use Rattle.std.specs.Prelude.{◌≡◌, ◌≤◌, ◌++◌, [], ◌∷◌, Some, None, map, option_map, IfOk};
ghost use Rattle.abstract_syntax.specs.Classes.{SpecTree};
ghost use Rattle.expr_tree.specs.View.{boxed_view};
ghost use Rattle.node_meaning.specs.Envs.{Locals};
ghost use Rattle.spec_table.specs.Tables.{table_spec};
ghost use Rattle.stmt_meaning.specs.Targets.{joined_goal as joined_plan, object_of_first as object_of_first_in, target_steps as target_steps_of, together as together_plan, written_together as written_plan};
ghost use Rattle.vdm_tree.specs.StmtView.{assignment_view, target_view};
ghost use Rattle.eval_data.specs.Parts.{here_of};
ghost use Rattle.step_data.specs.Actions.{action_code, height};
ghost use Rattle.step_data.specs.Goals.{goal_view, kept_then};
ghost use Rattle.step_data.specs.declared.assigning.Kept.TheVariants.{Joined};

use crate::assigning::joined;
use crate::goals::{goal_among, target_steps};
use eval_data::Here;
use run_journal::Write;
use spec_table::ClassTable;
use std::alloc::Global;
use step_data::{Action, Asking, Goal, Kept};
use vdm_kinds::{OutOfMemory, Place, RunFault};
use vdm_tree::Assignment;
use vdm_values::Value;

/// Assignments to variables of one object, which are written together by the statement at the place.
pub fn assign_together<'t>(
    alloc: Global,
    table: &'t ClassTable,
    here: Here<'t>,
    assignments: &'t [Assignment],
    place: Place,
) -> Result<Action<'t>, OutOfMemory>
    ensures same { IfOk result (λ a. (locals : Locals) → action_code (table_spec table.now) locals a ≡ together_plan (table_spec table.now) (here_of here.entry) place (map assignment_view assignments.now) None [] locals) }
    ensures falls { IfOk result (λ a. height a ≤ 2) }
{
    together(
        alloc,
        table,
        here,
        assignments,
        None,
        Vec::new(alloc),
        place,
    )
}

/// The assignments that are left, behind those to the object of this number.
fn together<'t>(
    alloc: Global,
    table: &'t ClassTable,
    here: Here<'t>,
    assignments: &'t [Assignment],
    object: Option<u32>,
    pairs: Vec<Write>,
    place: Place,
) -> Result<Action<'t>, OutOfMemory>
    ensures same { IfOk result (λ a. (locals : Locals) → action_code (table_spec table.now) locals a ≡ together_plan (table_spec table.now) (here_of here.entry) place (map assignment_view assignments.now) object pairs.items locals) }
    ensures falls { IfOk result (λ a. height a ≤ 2) }
{
    match assignments {
        [] => Ok(written_together(place, object, pairs)),
        [assignment, left @ ..] => {
            let goal = goal_among(table, here, &[], &assignment.target)?;
            assign_one(alloc, here, goal, assignment, object, pairs, left, place)
        }
    }
}

/// All of them are written at once.
fn written_together<'t>(place: Place, object: Option<u32>, pairs: Vec<Write>) -> Action<'t>
    ensures same { (spec : SpecTree) (locals : Locals) → action_code spec locals result ≡ written_plan place object pairs.items locals }
    ensures falls { height result ≤ 2 }
{
    match object {
        Some(me) => Action::Ask(Asking::WriteTogether(me, pairs, place)),
        None => Action::Fail(RunFault::Undefined, place),
    }
}

/// One of them, where it writes to something.
fn assign_one<'t>(
    alloc: Global,
    here: Here<'t>,
    goal: Option<Goal<'t>>,
    assignment: &'t Assignment,
    object: Option<u32>,
    pairs: Vec<Write>,
    left: &'t [Assignment],
    place: Place,
) -> Result<Action<'t>, OutOfMemory>
    ensures same { IfOk result (λ a. (spec : SpecTree) (locals : Locals) → action_code spec locals a ≡ joined_plan spec (here_of here.entry) place (option_map goal_view goal.entry) (target_steps_of (target_view assignment.now.target)) (boxed_view assignment.now.value) (λ me pair. together_plan spec (here_of here.entry) place (map assignment_view left.now) (object_of_first_in object me) (pairs.items ++ pair ∷ [])) locals) }
    ensures falls { IfOk result (λ a. height a ≤ 1) }
{
    match goal {
        Some(goal) => { assign_variable(alloc, here, goal, assignment, object, pairs, left, place) }
        None => Ok(Action::Fail(RunFault::Undefined, place)),
    }
}

/// A variable of an object gets its value with the others; a local one never does.
fn assign_variable<'t>(
    alloc: Global,
    here: Here<'t>,
    goal: Goal<'t>,
    assignment: &'t Assignment,
    object: Option<u32>,
    pairs: Vec<Write>,
    left: &'t [Assignment],
    place: Place,
) -> Result<Action<'t>, OutOfMemory>
    ensures same { IfOk result (λ a. (spec : SpecTree) (locals : Locals) → action_code spec locals a ≡ joined_plan spec (here_of here.entry) place (Some (goal_view goal.entry)) (target_steps_of (target_view assignment.now.target)) (boxed_view assignment.now.value) (λ me pair. together_plan spec (here_of here.entry) place (map assignment_view left.now) (object_of_first_in object me) (pairs.items ++ pair ∷ [])) locals) }
    ensures falls { IfOk result (λ a. height a ≤ 1) }
{
    match goal {
        Goal::Variable(_, _, _) => {
            let steps = target_steps(&assignment.target);
            let kept = Kept::Joined(object, pairs, left);
            joined(alloc, here, goal, steps, &assignment.value, kept, place)
        }
        Goal::Local(_, _) => Ok(Action::Fail(RunFault::Undefined, place)),
    }
}

/// The value of one of them came, and fits: the others follow.
pub(crate) fn value_joined<'t>(
    alloc: Global,
    table: &'t ClassTable,
    here: Here<'t>,
    goal: Goal<'t>,
    object: Option<u32>,
    pairs: Vec<Write>,
    left: &'t [Assignment],
    place: Place,
    value: Value,
) -> Result<Action<'t>, OutOfMemory>
    ensures same { IfOk result (λ a. (locals : Locals) → action_code (table_spec table.now) locals a ≡ kept_then (table_spec table.now) (here_of here.entry) place (goal_view goal.entry) (Joined object pairs left.entry) value locals) }
    ensures falls { IfOk result (λ a. height a ≤ 2) }
{
    match goal {
        Goal::Variable(me, var, _) => {
            let mut pairs = pairs;
            pairs.push(Write { var, value })?;
            let object = object_of_first(object, me);
            together(alloc, table, here, left, object, pairs, place)
        }
        Goal::Local(_, _) => Ok(Action::Fail(RunFault::Undefined, place)),
    }
}

/// The object of the first variable is that of all.
fn object_of_first(first: Option<u32>, object: u32) -> Option<u32>
    ensures { result ≡ object_of_first_in first object }
{
    match first {
        Some(_) => first,
        None => Some(object),
    }
}
