// Whether an object keeps its invariants once variables are written.

ghost use Rattle.std.specs.Prelude.{◌≡◌, IfOk, map};
ghost use Rattle.vdm_kinds.specs.declared.member.VarRef.{VarRef as Variable};
ghost use Rattle.run_journal.specs.Parts.{object_part};
ghost use Rattle.spec_table.specs.Tables.{table_spec};
ghost use Rattle.vdm_legal.specs.State.{class_made, instance_class, keeps_with, slot_or, state_with, written_in};
ghost use Rattle.plain_state.specs.Guarded.{guarded, guarded_class};
ghost use Rattle.plain_state.specs.Holdings.{held_slot};
ghost use Rattle.plain_state.specs.Refusals.{write_answer};

use crate::layout::object_variables;
use crate::state::{Holding, held_by, slot_of};
use crate::writes::written_in;
use eval_data::Held;
use kept_invariants::{has_invariants, keeps};
use run_journal::{Answer, Deed, Entry, Write};
use spec_table::ClassTable;
use std::alloc::Global;
use vdm_kinds::{Name, OutOfMemory, VarRef};
use vdm_values::Slot;

/// Whether the invariants of the object hold behind the entries, once these are written.
pub(crate) fn keeps_with(
    alloc: Global,
    table: &ClassTable,
    entries: &[Entry],
    object: u32,
    writes: &[Write],
) -> Result<bool, OutOfMemory>
    ensures { IfOk result (λ kept. kept ≡ keeps_with (table_spec table.now) (object_part object entries.now) writes.now) }
{
    let Some(class) = guarded_class(table, entries, object) else {
        return Ok(true);
    };
    let variables = object_variables(table, class);
    let held = held_with(alloc, table, entries, object, writes, variables)?;
    keeps(alloc, table, class, held)
}

/// The class of the object, where it has invariants to keep: a class object has none.
pub(crate) fn guarded_class(table: &ClassTable, entries: &[Entry], object: u32) -> Option<Name>
    ensures { result ≡ guarded_class (table_spec table.now) (object_part object entries.now) }
{
    match instance_class(entries, object) {
        Some(class) => guarded(table, class),
        None => None,
    }
}

fn guarded(table: &ClassTable, class: Name) -> Option<Name>
    ensures { result ≡ guarded (table_spec table.now) class }
{
    if has_invariants(table, class) {
        Some(class)
    } else {
        None
    }
}

/// The class of which the object was made.
fn instance_class(entries: &[Entry], object: u32) -> Option<Name>
    ensures { result ≡ instance_class (object_part object entries.now) }
{
    for entry in entries {
        if entry.object == object {
            return class_made(&entry.deed);
        }
    }
    None
}

fn class_made(deed: &Deed) -> Option<Name>
    ensures { result ≡ class_made deed.now }
{
    match deed {
        Deed::New { class, .. } => Some(*class),
        _ => None,
    }
}

/// What the variables of the object hold behind the entries, once these are written.
fn held_with(
    alloc: Global,
    table: &ClassTable,
    entries: &[Entry],
    object: u32,
    writes: &[Write],
    variables: &[VarRef],
) -> Result<Held, OutOfMemory>
    ensures { IfOk result (λ held. held.variables.items ≡ map (λ (var : Variable). (var, state_with (table_spec table.now) (object_part object entries.now) writes.now var)) variables.now) }
{
    let mut held = Vec::with_capacity(alloc, variables.len())?;
    for var in variables {
        let before = held_by(table, entries, entries, object, *var);
        held.push((*var, slot_with(alloc, before, *var, writes)?))?;
    }
    Ok(Held { variables: held })
}

/// A copy of what the variable holds once these are written, by what it held before.
pub(crate) fn slot_with(
    alloc: Global,
    before: Holding<'_>,
    var: VarRef,
    writes: &[Write],
) -> Result<Slot, OutOfMemory>
    ensures { IfOk result (λ slot. slot ≡ slot_or (held_slot before.entry) (written_in var writes.now)) }
{
    match written_in(writes, var) {
        Some(value) => Ok(Slot::Held(value.copy(alloc)?)),
        None => slot_of(alloc, before),
    }
}

/// What is answered to a write, by whether the invariants hold behind it.
pub(crate) fn write_answer(kept: bool) -> Answer
    ensures { result ≡ write_answer kept }
{
    if kept { Answer::Done } else { Answer::Refused }
}
