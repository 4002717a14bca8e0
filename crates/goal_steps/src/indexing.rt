// The expressions in an assignment, one after the other.

ghost use Rattle.std.specs.Prelude.{◌≡◌, ◌≤◌, ◌++◌, [], ◌∷◌, IfOk};
ghost use Rattle.abstract_syntax.specs.Classes.{SpecTree};
ghost use Rattle.spec_table.specs.Tables.{table_spec};
ghost use Rattle.node_meaning.specs.Envs.{Locals};
ghost use Rattle.node_meaning.specs.Matching.{exprs_of};
ghost use Rattle.node_meaning.specs.Strict.{collected, with_others};
ghost use Rattle.stmt_meaning.specs.Targets.{goal_changed as changed_plan};
ghost use Rattle.eval_data.specs.Parts.{here_of, flow_of};
ghost use Rattle.step_data.specs.Actions.{action_code, height};
ghost use Rattle.step_data.specs.Goals.{exprs_left, goal_view, index_then, kept_with, steps_of};
ghost use Rattle.goal_steps.specs.Parts.{part_exprs};

use crate::changing::goal_changed;
use crate::parts::{NextPart, next_part};
use eval_data::Flow;
use flow_values::{Came, value_in};
use spec_table::ClassTable;
use std::alloc::Global;
use step_data::{Action, Assigning, Pending, Task, Waiting};
use vdm_kinds::{Name, OutOfMemory, RunFault};
use vdm_values::{Slot, Value};

/// An expression of an assignment is evaluated.
pub(crate) fn evaluating<'t>(assigning: Box<Assigning<'t>>, part: NextPart<'t>) -> Action<'t>
    ensures same { (spec : SpecTree) (locals : Locals) → action_code spec locals result ≡ collected (here_of assigning.entry.value.here) assigning.entry.value.place (exprs_of (part_exprs part.entry)) assigning.entry.value.done.items (changed_plan spec (here_of assigning.entry.value.here) assigning.entry.value.place (goal_view assigning.entry.value.goal) (steps_of assigning.entry.value) (kept_with spec assigning.entry.value)) locals }
    ensures falls { height result ≤ 1 }
{
    let mut assigning = assigning;
    let here = assigning.here;
    set_left(&mut assigning, part);
    Action::Part(
        Task::Expr(here, part.tree),
        Pending {
            waiting: Waiting::Index(assigning),
        },
    )
}

/// What stands behind the expression is left.
fn set_left<'t>(assigning: &mut Assigning<'t>, part: NextPart<'t>)
    ensures { assigning.new ≡ record assigning.old { left = part.entry.left; value = part.entry.value } }
{
    assigning.left = part.left;
    assigning.value = part.value;
}

/// An index of a target came, or behind all of them the value for the part.
pub fn index_came<'t>(
    alloc: Global,
    table: &'t ClassTable,
    locals: &mut Vec<(Name, Slot)>,
    assigning: Box<Assigning<'t>>,
    flow: Flow,
) -> Result<Action<'t>, OutOfMemory>
    ensures same { IfOk result (λ a. action_code (table_spec table.now) locals.new.items a ≡ index_then (table_spec table.now) assigning.entry.value (flow_of flow locals.old.items)) }
    ensures falls { IfOk result (λ a. height a ≤ 3) }
{
    match value_in(flow) {
        Came::Is(value) => index_given(alloc, table, locals, assigning, value),
        Came::Nothing => Ok(Action::Fail(RunFault::Undefined, assigning.place)),
        Came::Exits(value, from) => Ok(Action::Finish(Flow::Exited(value, from))),
    }
}

/// The next expression follows, or else the variable is changed.
fn index_given<'t>(
    alloc: Global,
    table: &'t ClassTable,
    locals: &mut Vec<(Name, Slot)>,
    assigning: Box<Assigning<'t>>,
    value: Value,
) -> Result<Action<'t>, OutOfMemory>
    ensures same { IfOk result (λ a. action_code (table_spec table.now) locals.new.items a ≡ with_others (here_of assigning.entry.value.here) assigning.entry.value.place (exprs_of (exprs_left assigning.entry.value)) assigning.entry.value.done.items (changed_plan (table_spec table.now) (here_of assigning.entry.value.here) assigning.entry.value.place (goal_view assigning.entry.value.goal) (steps_of assigning.entry.value) (kept_with (table_spec table.now) assigning.entry.value)) value locals.old.items) }
    ensures falls { IfOk result (λ a. height a ≤ 3) }
{
    let mut assigning = assigning;
    add_done(&mut assigning, value)?;
    match next_part(assigning.left, assigning.value) {
        Some(part) => Ok(evaluating(assigning, part)),
        None => goal_changed(alloc, table, locals, assigning),
    }
}

/// A value came.
fn add_done<'t>(assigning: &mut Assigning<'t>, value: Value) -> Result<(), OutOfMemory>
    ensures kept { assigning.new ≡ record assigning.old { done = assigning.new.done } }
    ensures added { IfOk result (λ _. assigning.new.done.items ≡ assigning.old.done.items ++ value ∷ []) }
{
    assigning.done.push(value)?;
    Ok(())
}
