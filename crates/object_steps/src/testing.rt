// The slots of a new object, which are tested against the types of their variables.

ghost use Rattle.std.specs.Prelude.{◌≡◌, ◌≤◌, ◌+◌, IfOk, option_map, slice_get};
ghost use Rattle.std.specs.Borrow.{Bor};
ghost use Rattle.vdm_values.specs.declared.slot.Slot.{Slot as SlotOf};
ghost use Rattle.abstract_syntax.specs.Classes.{SpecTree};
ghost use Rattle.node_meaning.specs.Envs.{Locals};
ghost use Rattle.node_meaning.specs.Fitting.{slot_typed};
ghost use Rattle.node_meaning.specs.Names.{variable_definition};
ghost use Rattle.node_meaning.specs.Tasks.{Code, with_value};
ghost use Rattle.stmt_meaning.specs.Objects.{object_asked as object_plan};
ghost use Rattle.spec_table.specs.Tables.{table_spec};
ghost use Rattle.eval_data.specs.Parts.{flow_of};
ghost use Rattle.step_data.specs.Actions.{action_code, busy, height, most};
ghost use Rattle.step_data.specs.Callings.{making_of, object_left, slots_left};
ghost use Rattle.call_steps.specs.Trials.{tried_code};

use crate::keeping::keeps_made;
use call_steps::{Tried, value_tried};
use eval_data::Flow;
use flow_values::{Came, value_in};
use spec_table::ClassTable;
use std::alloc::Global;
use step_data::{Action, Asking, Making, Waiting};
use vdm_kinds::{Name, OutOfMemory, Place, RunFault, VarRef};
use vdm_values::{Slot, SlotList};

/// What came fits the type of its variable, where it is a value: the slots behind the first so many are tested, then the invariants of
/// the object, and then the object is asked for.
///
/// # Errors
/// Want of memory.
pub fn slot_fits<'t>(
    alloc: Global,
    table: &'t ClassTable,
    locals: &mut Vec<(Name, Slot)>,
    making: Box<Making<'t>>,
    tested: usize,
    flow: Flow,
) -> Result<Action<'t>, OutOfMemory>
    ensures same { IfOk result (λ a. action_code (table_spec table.now) locals.new.items a ≡ with_value making.entry.value.object.value.place (λ v. slots_left (table_spec table.now) making.entry.value tested) (flow_of flow locals.old.items)) }
    ensures busy { IfOk result (λ a. busy a ≤ 1) }
    ensures falls { IfOk result (λ a. height a ≤ 7 + most) }
{
    match value_in(flow) {
        Came::Is(_value) => test_slots(alloc, table, locals, making, tested),
        Came::Nothing => Ok(Action::Fail(RunFault::Undefined, making.object.place)),
        Came::Exits(value, from) => Ok(Action::Finish(Flow::Exited(value, from))),
    }
}

/// The slots behind the first so many are tested, then the invariants of the object, and then the object is asked for.
pub(crate) fn test_slots<'t>(
    alloc: Global,
    table: &'t ClassTable,
    locals: &mut Vec<(Name, Slot)>,
    making: Box<Making<'t>>,
    tested: usize,
) -> Result<Action<'t>, OutOfMemory>
    ensures same { IfOk result (λ a. action_code (table_spec table.now) locals.new.items a ≡ slots_left (table_spec table.now) making.entry.value tested locals.old.items) }
    ensures busy { IfOk result (λ a. busy a ≤ 1) }
    ensures falls { IfOk result (λ a. height a ≤ 7 + most) }
{
    for index in tested..making.slots.len() {
        match next_tried(alloc, table, locals, &making, index)? {
            Tried::Passes => {}
            Tried::Fails(fault) => return Ok(Action::Fail(fault, making.object.place)),
            Tried::Asks(here, tree, inner) => {
                let waiting = Waiting::Slots(making, index + 1);
                return Action::fit(alloc, here, tree, inner, waiting);
            }
        }
    }
    object_left(alloc, table, making)
}

/// The object is asked for, where its invariants hold.
fn object_left<'t>(
    alloc: Global,
    table: &'t ClassTable,
    making: Box<Making<'t>>,
) -> Result<Action<'t>, OutOfMemory>
    ensures same { IfOk result (λ a. (locals : Locals) → action_code (table_spec table.now) locals a ≡ object_left (table_spec table.now) making.entry.value locals) }
    ensures busy { IfOk result (λ a. busy a ≤ 1) }
    ensures falls { IfOk result (λ a. height a ≤ 7 + most) }
{
    if keeps_made(alloc, table, &making)? {
        Ok(object_asked(making))
    } else {
        Ok(Action::Fail(RunFault::InstanceInvariant, making.object.place))
    }
}

/// The object is asked for.
fn object_asked<'t>(making: Box<Making<'t>>) -> Action<'t>
    ensures same { (spec : SpecTree) (locals : Locals) → action_code spec locals result ≡ object_plan spec (making_of making.entry.value.object.value) making.entry.value.slots.items locals }
    ensures busy { busy result ≤ 0 }
    ensures falls { height result ≤ 7 + most }
{
    let (object, slots) = Box::into_inner(making).into_parts();
    Action::Ask(Asking::New(object, SlotList::from_vec(slots)))
}

/// The test of the slot of this number.
fn next_tried<'t>(
    alloc: Global,
    table: &'t ClassTable,
    locals: &mut Vec<(Name, Slot)>,
    making: &Making<'t>,
    index: usize,
) -> Result<Tried<'t>, OutOfMemory>
    ensures { IfOk result (λ t. tried_code (table_spec table.now) making.now.object.value.place locals.new.items (slots_left (table_spec table.now) making.now (index + 1)) t ≡ slots_left (table_spec table.now) making.now index locals.old.items) }
{
    match variable_at(making, index) {
        None => Ok(Tried::Passes),
        Some(variable) => match slot_at(making, index) {
            None => Ok(Tried::Passes),
            Some(slot) => {
                let place = making.object.place;
                let tried = slot_tried(alloc, table, locals, place, variable, slot)?;
                Ok(tried)
            }
        },
    }
}

fn variable_at(making: &Making<'_>, index: usize) -> Option<VarRef>
    ensures { result ≡ slice_get making.now.variables.now index }
{
    making.variables.get(index).copied()
}

fn slot_at<'m>(making: &'m Making<'_>, index: usize) -> Option<&'m Slot>
    ensures { option_map (λ (s : Bor SlotOf). s.now) result ≡ slice_get making.now.slots.items index }
{
    making.slots.as_slice().get(index)
}

/// What the slot of a variable holds is tested, where it holds anything.
fn slot_tried<'t>(
    alloc: Global,
    table: &'t ClassTable,
    locals: &mut Vec<(Name, Slot)>,
    place: Place,
    variable: VarRef,
    slot: &Slot,
) -> Result<Tried<'t>, OutOfMemory>
    ensures { IfOk result (λ t. (further : Locals → Code) → tried_code (table_spec table.now) place locals.new.items further t ≡ slot_typed (table_spec table.now) place variable.class (variable_definition (table_spec table.now) variable) slot.now further locals.old.items) }
{
    match (table.variable(&variable), slot) {
        (Some(definition), Slot::Held(value)) => {
            let declared = &definition.declared;
            value_tried(alloc, table, locals, place, variable.class, declared, value)
        }
        _ => Ok(Tried::Passes),
    }
}
