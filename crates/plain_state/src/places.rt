// Which part of the entries says what a variable holds.

ghost use Rattle.std.specs.Prelude.{◌≡◌, ◌⊎◌, ℕ, true, Option, Some, None, take, drop, length, OnOk};
ghost use Rattle.std.specs.Option.{is_some};
ghost use Rattle.std.specs.HashMap.{get};
ghost use Rattle.vdm_kinds.specs.declared.member.VarRef.{VarRef};
ghost use Rattle.vdm_legal.specs.State.{written_in};
ghost use Rattle.plain_state.specs.Found.{AreNoted, Place, place_of, same_place, through};

use run_journal::{Deed, Entry, Write};
use std::collections::HashMap;
use vdm_kinds::{OutOfMemory, VarRef};

/// A variable of an object, by the numbers of the object, of the variable's class and of its name.
pub(crate) type Place = (u32, u32, u32);

/// The variable of the object.
pub(crate) fn place_of(object: u32, var: VarRef) -> Place
    ensures { result ≡ place_of object var }
{
    (object, var.class.0, var.name.0)
}

/// The entries behind so many.
pub(crate) fn behind(entries: &[Entry], count: usize) -> &[Entry]
    ensures { result.now ≡ drop count entries.now }
{
    if count < entries.len() {
        &entries[count..]
    } else {
        &[]
    }
}

/// The entries up to that of the number, or none.
pub(crate) fn up_to(entries: &[Entry], number: Option<usize>) -> &[Entry]
    ensures { result.now ≡ take (through number) entries.now }
{
    match number {
        Some(number) if number < entries.len() => &entries[..number + 1],
        Some(_) => entries,
        None => &[],
    }
}

/// Notes the number for each variable of the object that the deed writes.
pub(crate) fn note_deed(
    writes: &mut HashMap<Place, usize>,
    object: u32,
    deed: &Deed,
    number: usize,
) -> Result<(), OutOfMemory>
    ensures noted { OnOk result (AreNoted writes.new object deed.now number) }
    ensures others { (place : Place) → (get same_place writes.new place ≡ get same_place writes.old place) ⊎ (get same_place writes.new place ≡ Some number) }
{
    match deed {
        Deed::Write {
            writes: pairs,
            refused: false,
        } => note_pairs(writes, object, pairs.as_slice(), number),
        _ => Ok(()),
    }
}

/// Notes the number for each variable of the object that is in a pair.
fn note_pairs(
    writes: &mut HashMap<Place, usize>,
    object: u32,
    pairs: &[Write],
    number: usize,
) -> Result<(), OutOfMemory>
    ensures noted { OnOk result ((var : VarRef) → is_some (written_in var pairs.now) ≡ true → get same_place writes.new (place_of object var) ≡ Some number) }
    ensures others { (place : Place) → (get same_place writes.new place ≡ get same_place writes.old place) ⊎ (get same_place writes.new place ≡ Some number) }
{
    for pair in pairs {
        writes.insert(place_of(object, pair.var), number)?;
    }
    Ok(())
}
