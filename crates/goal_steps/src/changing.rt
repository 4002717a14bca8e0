// Variables of which a part is changed.

ghost use Rattle.std.specs.Prelude.{◌≡◌, ◌≤◌, Some, option_map, IfOk};
ghost use Rattle.std.specs.Borrow.{Bor};
ghost use Rattle.spec_table.specs.Tables.{table_spec};
ghost use Rattle.value_operators.specs.Outcomes.{Gives, Outcome};
ghost use Rattle.vdm_values.specs.declared.slot.Slot.{Slot as SlotOf};
ghost use Rattle.node_meaning.specs.Envs.{local_named};
ghost use Rattle.node_meaning.specs.Needs.{slot_in as slot_of};
ghost use Rattle.stmt_meaning.specs.Targets.{changed_typed as typed_plan, goal_changed as changed_plan, local_read};
ghost use Rattle.eval_data.specs.Parts.{here_of};
ghost use Rattle.step_data.specs.Actions.{action_code, height};
ghost use Rattle.step_data.specs.Goals.{goal_view, kept_with, old_answered, old_changed, steps_of};
ghost use Rattle.goal_steps.specs.Slots.{slot_changed};

use crate::keeping::value_tested;
use name_steps::local_slot;
use run_journal::Answer;
use spec_table::ClassTable;
use std::alloc::Global;
use step_data::{Action, Asking, Assigning, Goal};
use target_values::changed_by;
use vdm_kinds::{Halt, Name, OutOfMemory, RunFault};
use vdm_values::{Slot, Value};

/// All indices and the value are there: a local variable is changed, and one of the object read first.
pub(crate) fn goal_changed<'t>(
    alloc: Global,
    table: &'t ClassTable,
    locals: &mut Vec<(Name, Slot)>,
    assigning: Box<Assigning<'t>>,
) -> Result<Action<'t>, OutOfMemory>
    ensures same { IfOk result (λ a. action_code (table_spec table.now) locals.new.items a ≡ changed_plan (table_spec table.now) (here_of assigning.entry.value.here) assigning.entry.value.place (goal_view assigning.entry.value.goal) (steps_of assigning.entry.value) (kept_with (table_spec table.now) assigning.entry.value) assigning.entry.value.done.items locals.old.items) }
    ensures falls { IfOk result (λ a. height a ≤ 3) }
{
    match assigning.goal {
        Goal::Local(name, _) => local_changed(alloc, table, locals, assigning, name),
        Goal::Variable(me, var, _) => Ok(Action::Ask(Asking::Old(assigning, me, var))),
    }
}

fn local_changed<'t>(
    alloc: Global,
    table: &'t ClassTable,
    locals: &mut Vec<(Name, Slot)>,
    assigning: Box<Assigning<'t>>,
    name: Name,
) -> Result<Action<'t>, OutOfMemory>
    ensures same { IfOk result (λ a. action_code (table_spec table.now) locals.new.items a ≡ local_read assigning.entry.value.place (old_changed (table_spec table.now) assigning.entry.value) (local_named locals.old.items name) locals.old.items) }
    ensures falls { IfOk result (λ a. height a ≤ 2) }
{
    let slot = local_slot(locals.as_slice(), name);
    let changed = with_changed(alloc, table, &assigning, slot);
    changed_tested(alloc, table, locals, assigning, changed)
}

/// What a variable holds was read, a part of which is to be changed.
pub fn old_read<'t>(
    alloc: Global,
    table: &'t ClassTable,
    locals: &mut Vec<(Name, Slot)>,
    assigning: Box<Assigning<'t>>,
    answer: Answer,
) -> Result<Action<'t>, OutOfMemory>
    ensures same { IfOk result (λ a. action_code (table_spec table.now) locals.new.items a ≡ old_answered (table_spec table.now) assigning.entry.value locals.old.items answer) }
    ensures falls { IfOk result (λ a. height a ≤ 2) }
{
    let slot = slot_in(answer);
    let changed = with_changed(alloc, table, &assigning, Some(&slot));
    changed_tested(alloc, table, locals, assigning, changed)
}

/// The slot in an answer.
fn slot_in(answer: Answer) -> Slot
    ensures { result ≡ slot_of answer }
{
    match answer {
        Answer::Slot(slot) => slot,
        _ => Slot::Unset,
    }
}

/// The value in the slot, with the part changed.
///
/// # Errors
///
/// `Undefined` where there is no value; and the faults of the change.
fn with_changed<'t>(
    alloc: Global,
    table: &'t ClassTable,
    assigning: &Assigning<'t>,
    slot: Option<&Slot>,
) -> Result<Value, Halt<RunFault>>
    ensures { Gives result (slot_changed (table_spec table.now) (steps_of assigning.now) assigning.now.done.items (option_map (λ (s : Bor SlotOf). s.now) slot.entry)) }
{
    match slot {
        Some(Slot::Held(old)) => {
            let values = assigning.done.as_slice();
            changed_by(alloc, table, assigning.steps, values, old)
        }
        Some(Slot::Unset) => Err(Halt::Of(RunFault::Undefined)),
        None => Err(Halt::Of(RunFault::Undefined)),
    }
}

/// The changed value is tested, and then kept.
fn changed_tested<'t>(
    alloc: Global,
    table: &'t ClassTable,
    locals: &mut Vec<(Name, Slot)>,
    assigning: Box<Assigning<'t>>,
    changed: Result<Value, Halt<RunFault>>,
) -> Result<Action<'t>, OutOfMemory>
    ensures same { IfOk result (λ a. (outcome : Outcome) → Gives changed outcome → action_code (table_spec table.now) locals.new.items a ≡ typed_plan (table_spec table.now) (here_of assigning.entry.value.here) assigning.entry.value.place (goal_view assigning.entry.value.goal) (kept_with (table_spec table.now) assigning.entry.value) outcome locals.old.items) }
    ensures falls { IfOk result (λ a. height a ≤ 2) }
{
    match changed {
        Ok(value) => value_tested(alloc, table, locals, assigning, value),
        Err(Halt::Of(fault)) => Ok(Action::Fail(fault, assigning.place)),
        Err(Halt::OutOfMemory) => Err(OutOfMemory),
    }
}
