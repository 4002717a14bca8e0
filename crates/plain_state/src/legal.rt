// Which entry may stand behind others at its object.

ghost use Rattle.std.specs.Prelude.{◌≡◌, ◌≢◌, ◌↔◌, [], not, IfOk, IsTrue};
ghost use Rattle.run_journal.specs.Parts.{object_part};
ghost use Rattle.spec_table.specs.Tables.{table_spec};
ghost use Rattle.vdm_legal.specs.AtObject.{IsLegalAtObject};
ghost use Rattle.vdm_legal.specs.State.{keeps_with};

use crate::calls::{is_active, is_untouched, is_waiting, ticks_on};
use crate::classes::{is_above_class_objects, is_class_object};
use crate::keeping::keeps_with;
use crate::state::holds;
use run_journal::{Deed, Entry, Write};
use spec_table::ClassTable;
use std::alloc::Global;
use vdm_kinds::OutOfMemory;

/// Whether the entry may stand behind those of its object.
///
/// # Errors
/// Want of memory, where what the object holds behind a write is tested.
pub fn is_legal_at_object(
    alloc: Global,
    table: &ClassTable,
    before: &[Entry],
    entry: &Entry,
) -> Result<bool, OutOfMemory>
    ensures { IfOk result (λ legal. IsTrue legal
        ↔ IsLegalAtObject (table_spec table.now) entry.now.object (object_part entry.now.object before.now) entry.now.deed) }
{
    if is_untouched(before, entry.object) {
        Ok(is_legal_first(table, entry))
    } else {
        is_legal_behind(alloc, table, before, entry)
    }
}

/// Whether the entry may stand first on its object.
fn is_legal_first(table: &ClassTable, entry: &Entry) -> bool
    ensures { IsTrue result ↔ IsLegalAtObject (table_spec table.now) entry.now.object [] entry.now.deed }
{
    match &entry.deed {
        Deed::Class { class, .. } => is_class_object(table, entry.object, *class),
        Deed::New { .. } => is_above_class_objects(table, entry.object),
        _ => false,
    }
}

/// Whether the entry may stand behind those of its object, of which there are some.
fn is_legal_behind(
    alloc: Global,
    table: &ClassTable,
    before: &[Entry],
    entry: &Entry,
) -> Result<bool, OutOfMemory>
    requires { object_part entry.now.object before.now ≢ [] }
    ensures { IfOk result (λ legal. IsTrue legal
        ↔ IsLegalAtObject (table_spec table.now) entry.now.object (object_part entry.now.object before.now) entry.now.deed) }
{
    let object = entry.object;
    match &entry.deed {
        Deed::Act { op } => Ok(is_waiting(before, object, op.name)),
        Deed::Fin { op } => Ok(is_active(before, object, op.name)),
        Deed::Read { var, value } => Ok(holds(table, before, object, *var, value)),
        Deed::Write { writes, refused } => {
            is_answered(alloc, table, before, object, writes.as_slice(), *refused)
        }
        Deed::Time { ticks } => Ok(ticks_on(before, object) == *ticks),
        Deed::Req { .. } | Deed::Print { .. } | Deed::End { .. } | Deed::Fail { .. } => Ok(true),
        _ => Ok(false),
    }
}

/// Whether the write is refused where an invariant of the object would not hold behind it, and there alone.
fn is_answered(
    alloc: Global,
    table: &ClassTable,
    before: &[Entry],
    object: u32,
    writes: &[Write],
    refused: bool,
) -> Result<bool, OutOfMemory>
    ensures { IfOk result (λ right. IsTrue right
        ↔ (refused ≡ not (keeps_with (table_spec table.now) (object_part object before.now) writes.now))) }
{
    let kept = keeps_with(alloc, table, before, object, writes)?;
    Ok(is_other(refused, kept))
}

fn is_other(a: bool, b: bool) -> bool
    ensures { IsTrue result ↔ (a ≡ not b) }
{
    a != b
}
