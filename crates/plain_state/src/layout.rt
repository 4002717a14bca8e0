// What a variable held when its object was made.

ghost use Rattle.std.specs.Prelude.{◌≡◌, option_copied};
ghost use Rattle.run_journal.specs.Parts.{object_part};
ghost use Rattle.spec_table.specs.Tables.{table_spec};
ghost use Rattle.vdm_legal.specs.State.{class_variables, first_slot, object_variables, slot_among, slot_made};
ghost use Rattle.plain_state.specs.Holdings.{slot_given};

use crate::writes::is_same_variable;
use run_journal::{Deed, Entry};
use spec_table::ClassTable;
use vdm_kinds::{Name, VarRef};
use vdm_values::Slot;

/// The slot that the object was made with for the variable; `None` where it was made without.
pub(crate) fn first_slot<'a>(
    table: &ClassTable,
    entries: &'a [Entry],
    object: u32,
    var: VarRef,
) -> Option<&'a Slot>
    ensures { slot_given (option_copied result) ≡ first_slot (table_spec table.now) var (object_part object entries.now) }
{
    for entry in entries {
        if entry.object == object {
            return slot_made(table, &entry.deed, var);
        }
    }
    None
}

/// The variable's slot among those that the deed made an object with.
fn slot_made<'a>(table: &ClassTable, deed: &'a Deed, var: VarRef) -> Option<&'a Slot>
    ensures { slot_given (option_copied result) ≡ slot_made (table_spec table.now) var deed.now }
{
    match deed {
        Deed::New { class, values } => {
            slot_among(var, object_variables(table, *class), values.as_slice())
        }
        Deed::Class { class, values } => {
            slot_among(var, class_variables(table, *class), values.as_slice())
        }
        _ => None,
    }
}

/// The variables of an object of the class; none of a class that is not there.
pub(crate) fn object_variables(table: &ClassTable, class: Name) -> &[VarRef]
    ensures { result.now ≡ object_variables (table_spec table.now) class }
{
    table.layout(class)
}

/// The variables of the class's class object; none of a class that is not there.
fn class_variables(table: &ClassTable, class: Name) -> &[VarRef]
    ensures { result.now ≡ class_variables (table_spec table.now) class }
{
    table.statics(class)
}

/// The variable's slot among these, which stand in the order of the variables.
fn slot_among<'a>(var: VarRef, variables: &[VarRef], slots: &'a [Slot]) -> Option<&'a Slot>
    ensures { slot_given (option_copied result) ≡ slot_among var variables.now slots.now }
{
    let mut rest = slots;
    for other in variables {
        let Some((slot, others)) = rest.split_first() else {
            return None;
        };
        if is_same_variable(var, *other) {
            return Some(slot);
        }
        rest = others;
    }
    None
}
