// Values that are tested, and then kept.

ghost use Rattle.std.specs.Prelude.{◌≡◌, ◌≤◌, IfOk};
ghost use Rattle.spec_table.specs.Tables.{table_spec};
ghost use Rattle.plans.specs.Plans.{bind};
ghost use Rattle.node_meaning.specs.Tasks.{with_value};
ghost use Rattle.stmt_meaning.specs.Questions.{of_thread};
ghost use Rattle.stmt_meaning.specs.Targets.{goal_typed};
ghost use Rattle.eval_data.specs.Parts.{here_of, flow_of};
ghost use Rattle.fit_steps.specs.Tests.{tested_code};
ghost use Rattle.step_data.specs.Actions.{action_code, height};
ghost use Rattle.step_data.specs.Goals.{goal_view, join_then, kept_with};
ghost use Rattle.goal_steps.specs.Joins.{kept_as};

use crate::storing::stored;
use crate::testing::goal_tested;
use crate::together::value_joined;
use eval_data::Flow;
use fit_steps::Tested;
use flow_values::{Came, value_in};
use run_journal::Write;
use spec_table::ClassTable;
use std::alloc::Global;
use std::mem;
use step_data::{Action, Assigning, Kept, Waiting};
use vdm_kinds::{Name, OutOfMemory, RunFault};
use vdm_tree::Assignment;
use vdm_values::{Slot, Value};

/// What a variable gets together with others came.
pub fn join_came<'t>(
    alloc: Global,
    table: &'t ClassTable,
    locals: &mut Vec<(Name, Slot)>,
    assigning: Box<Assigning<'t>>,
    flow: Flow,
) -> Result<Action<'t>, OutOfMemory>
    ensures same { IfOk result (λ a. action_code (table_spec table.now) locals.new.items a ≡ join_then (table_spec table.now) assigning.entry.value (flow_of flow locals.old.items)) }
    ensures falls { IfOk result (λ a. height a ≤ 2) }
{
    match value_in(flow) {
        Came::Is(value) => value_tested(alloc, table, locals, assigning, value),
        Came::Nothing => Ok(Action::Fail(RunFault::Undefined, assigning.place)),
        Came::Exits(value, from) => Ok(Action::Finish(Flow::Exited(value, from))),
    }
}

/// The value is tested against the type of what gets it.
pub(crate) fn value_tested<'t>(
    alloc: Global,
    table: &'t ClassTable,
    locals: &mut Vec<(Name, Slot)>,
    assigning: Box<Assigning<'t>>,
    value: Value,
) -> Result<Action<'t>, OutOfMemory>
    ensures same { IfOk result (λ a. action_code (table_spec table.now) locals.new.items a ≡ goal_typed (table_spec table.now) (here_of assigning.entry.value.here) assigning.entry.value.place (goal_view assigning.entry.value.goal) (kept_with (table_spec table.now) assigning.entry.value) value locals.old.items) }
    ensures falls { IfOk result (λ a. height a ≤ 2) }
{
    let here = assigning.here;
    let goal = assigning.goal;
    let place = assigning.place;
    let tested = goal_tested(alloc, table, locals, here, goal, place, value)?;
    value_decided(alloc, table, locals, assigning, tested)
}

/// It fits, or does not, or an invariant is asked.
fn value_decided<'t>(
    alloc: Global,
    table: &'t ClassTable,
    locals: &mut Vec<(Name, Slot)>,
    assigning: Box<Assigning<'t>>,
    tested: Tested<'t>,
) -> Result<Action<'t>, OutOfMemory>
    ensures same { IfOk result (λ a. action_code (table_spec table.now) locals.new.items a ≡ bind (tested_code (of_thread (table_spec table.now)) assigning.entry.value.place locals.old.items tested.entry) (with_value assigning.entry.value.place (kept_with (table_spec table.now) assigning.entry.value))) }
    ensures falls { IfOk result (λ a. height a ≤ 2) }
{
    match tested {
        Tested::Gives(value) => value_kept(alloc, table, locals, assigning, value),
        Tested::Fails(fault) => Ok(Action::Fail(fault, assigning.place)),
        Tested::Asks(here, tree, inner) => {
            Action::fit(alloc, here, tree, inner, Waiting::GoalFits(assigning))
        }
    }
}

/// What came fits the type of the variable that gets it.
pub fn goal_fits<'t>(
    alloc: Global,
    table: &'t ClassTable,
    locals: &mut Vec<(Name, Slot)>,
    assigning: Box<Assigning<'t>>,
    flow: Flow,
) -> Result<Action<'t>, OutOfMemory>
    ensures same { IfOk result (λ a. action_code (table_spec table.now) locals.new.items a ≡ with_value assigning.entry.value.place (kept_with (table_spec table.now) assigning.entry.value) (flow_of flow locals.old.items)) }
    ensures falls { IfOk result (λ a. height a ≤ 2) }
{
    match value_in(flow) {
        Came::Is(value) => value_kept(alloc, table, locals, assigning, value),
        Came::Nothing => Ok(Action::Fail(RunFault::Undefined, assigning.place)),
        Came::Exits(value, from) => Ok(Action::Finish(Flow::Exited(value, from))),
    }
}

/// It is written, or kept until the others are there.
fn value_kept<'t>(
    alloc: Global,
    table: &'t ClassTable,
    locals: &mut Vec<(Name, Slot)>,
    assigning: Box<Assigning<'t>>,
    value: Value,
) -> Result<Action<'t>, OutOfMemory>
    ensures same { IfOk result (λ a. action_code (table_spec table.now) locals.new.items a ≡ kept_with (table_spec table.now) assigning.entry.value value locals.old.items) }
    ensures falls { IfOk result (λ a. height a ≤ 2) }
{
    let mut assigning = assigning;
    let here = assigning.here;
    let goal = assigning.goal;
    let place = assigning.place;
    match take_joined(alloc, &mut assigning) {
        Some((object, pairs, left)) => {
            value_joined(alloc, table, here, goal, object, pairs, left, place, value)
        }
        None => stored(alloc, locals, goal, place, value),
    }
}

/// Takes out what the value is written together with, where it is not written by itself.
fn take_joined<'t>(
    alloc: Global,
    assigning: &mut Assigning<'t>,
) -> Option<(Option<u32>, Vec<Write>, &'t [Assignment])>
    ensures { assigning.old.kept ≡ kept_as result }
{
    match &mut assigning.kept {
        Kept::Stored => None,
        Kept::Joined(object, pairs, left) => {
            let pairs = mem::replace(pairs, Vec::new(alloc));
            Some((*object, pairs, *left))
        }
    }
}
