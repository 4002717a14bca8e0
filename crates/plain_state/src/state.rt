// What a variable holds.

ghost use Rattle.std.specs.Prelude.{◌≡◌, ◌↔◌, IfOk, IsTrue};
ghost use Rattle.run_journal.specs.Parts.{object_part};
ghost use Rattle.spec_table.specs.Tables.{table_spec};
ghost use Rattle.vdm_legal.specs.State.{first_slot, last_written, slot_or, state_of};
ghost use Rattle.plain_state.specs.Holdings.{held_slot};

use crate::layout::first_slot;
use crate::writes::last_written;
use run_journal::Entry;
use spec_table::ClassTable;
use std::alloc::Global;
use vdm_kinds::{OutOfMemory, VarRef};
use vdm_values::{Slot, Value};

/// What a variable holds, where it stands among the entries.
#[derive(Clone, Copy)]
pub(crate) enum Holding<'a> {
    /// The value that was written last.
    Written(&'a Value),
    /// Nothing was written, and the object was made with this slot.
    Made(&'a Slot),
    /// Nothing was written, and the object was made without the variable.
    Nothing,
}

/// A copy of what the variable of the object holds behind the entries: what was written last, or else what the object was made
/// with. A variable that the object does not have is unset.
pub fn state_of(
    alloc: Global,
    table: &ClassTable,
    entries: &[Entry],
    object: u32,
    var: VarRef,
) -> Result<Slot, OutOfMemory>
    ensures { IfOk result (λ held. held ≡ state_of (table_spec table.now) (object_part object entries.now) var) }
{
    slot_of(alloc, held_by(table, entries, entries, object, var))
}

/// Whether the variable of the object holds this behind the entries.
pub(crate) fn holds(
    table: &ClassTable,
    entries: &[Entry],
    object: u32,
    var: VarRef,
    slot: &Slot,
) -> bool
    ensures { IsTrue result ↔ (state_of (table_spec table.now) (object_part object entries.now) var ≡ slot.now) }
{
    is_slot(held_by(table, entries, entries, object, var), slot)
}

/// What the variable of the object holds, by what it was made with in one part of the entries, and what was written in another.
pub(crate) fn held_by<'a>(
    table: &ClassTable,
    made: &'a [Entry],
    written: &'a [Entry],
    object: u32,
    var: VarRef,
) -> Holding<'a>
    ensures { held_slot result
        ≡ slot_or (first_slot (table_spec table.now) var (object_part object made.now)) (last_written var (object_part object written.now)) }
{
    match last_written(written, object, var) {
        Some(value) => Holding::Written(value),
        None => made_with(table, made, object, var),
    }
}

/// What the object was made with for the variable.
fn made_with<'a>(table: &ClassTable, entries: &'a [Entry], object: u32, var: VarRef) -> Holding<'a>
    ensures { held_slot result ≡ first_slot (table_spec table.now) var (object_part object entries.now) }
{
    match first_slot(table, entries, object, var) {
        Some(slot) => Holding::Made(slot),
        None => Holding::Nothing,
    }
}

/// A copy of the slot.
pub(crate) fn slot_of(alloc: Global, holding: Holding<'_>) -> Result<Slot, OutOfMemory>
    ensures { IfOk result (λ slot. slot ≡ held_slot holding.entry) }
{
    match holding {
        Holding::Written(value) => Ok(Slot::Held(value.copy(alloc)?)),
        Holding::Made(slot) => slot.copy(alloc),
        Holding::Nothing => Ok(Slot::Unset),
    }
}

/// Whether it is this slot that is held.
#[tactic(auto, using(abstract_syntax::specs::SameBy::sameness))]
fn is_slot(holding: Holding<'_>, slot: &Slot) -> bool
    ensures { IsTrue result ↔ (held_slot holding.entry ≡ slot.now) }
{
    match holding {
        Holding::Written(value) => matches!(slot, Slot::Held(held) if held == value),
        Holding::Made(first) => first == slot,
        Holding::Nothing => matches!(slot, Slot::Unset),
    }
}
