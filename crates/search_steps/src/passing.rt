// Choices that the patterns do not match are passed over.

ghost use Rattle.std.specs.Prelude.{◌≡◌, IfOk};
ghost use Rattle.spec_table.specs.Tables.{table_spec};
ghost use Rattle.search_steps.specs.Outcomes.{choices_from, found_code, found_of, turn_code};

use crate::found::Found;
use bind_steps::{Attempt, bound_or};
use eval_data::Search;
use spec_table::ClassTable;
use std::alloc::Global;
use vdm_kinds::{Name, OutOfMemory};
use vdm_values::Slot;

/// Goes on to the first choice that the patterns match, if there is one. No run comes to as many choices as are counted.
pub(crate) fn first_found(
    alloc: Global,
    table: &ClassTable,
    locals: &mut Vec<(Name, Slot)>,
    search: &mut Search<'_>,
) -> Result<Found, OutOfMemory>
    ensures { IfOk result (λ found. choices_from (table_spec table.now) search.old locals.old.items ≡ found_code (table_spec table.now) search.new found locals.new.items) }
{
    for turns in 0..u64::MAX {
        if let Some(found) = turn(alloc, table, locals, search)? {
            return Ok(found);
        }
        search.choices.advance();
    }
    Err(OutOfMemory)
}

// What the first of the choices that are left comes to; none where the patterns don't match it.
fn turn(
    alloc: Global,
    table: &ClassTable,
    locals: &mut Vec<(Name, Slot)>,
    search: &Search<'_>,
) -> Result<Option<Found>, OutOfMemory>
    ensures { IfOk result (λ found. choices_from (table_spec table.now) search.now locals.old.items ≡ turn_code (table_spec table.now) search.now found locals.new.items) }
{
    let Some(values) = search.choices.next(alloc)? else {
        return Ok(Some(Found::Exhausted));
    };
    let attempt = bound_or(
        alloc,
        table,
        search.here.scope,
        search.patterns.as_slice(),
        &search.given,
        values.as_slice(),
        locals,
    )?;
    Ok(found_of(attempt))
}

// What a match comes to.
fn found_of(attempt: Attempt) -> Option<Found>
    ensures { result ≡ found_of attempt }
{
    match attempt {
        Attempt::Matched => Some(Found::Matched),
        Attempt::Missed => None,
        Attempt::Fault(fault) => Some(Found::Fault(fault)),
    }
}
