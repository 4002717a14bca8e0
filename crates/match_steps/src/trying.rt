// Patterns that are tried with a value, until one does not just miss it.

ghost use Rattle.std.specs.Prelude.{◌≡◌, ◌<◌, [], ◌∷◌, IfOk, IfSome, MatchOption};
ghost use Rattle.vdm_kinds.specs.declared.place.Place.{Place};
ghost use Rattle.abstract_syntax.specs.Classes.{SpecTree};
ghost use Rattle.abstract_syntax.specs.Values.{ValueTree};
ghost use Rattle.node_meaning.specs.Envs.{Locals};
ghost use Rattle.node_meaning.specs.Matching.{met as met_given};
ghost use Rattle.node_meaning.specs.Tasks.{Code};
ghost use Rattle.eval_data.specs.Steps.{meets_with, met_here, met_pattern, missed};
ghost use Rattle.spec_table.specs.Tables.{table_spec};
ghost use Rattle.bind_steps.specs.Attempts.{attempted};
ghost use Rattle.match_steps.specs.Trials.{ended_as, further_count, left_over, tried_as};

use crate::alternatives::next_of;
use crate::parts::{first_of, met_here, met_pattern};
use crate::trial::{Trial, Tried};
use bind_steps::{Attempt, bound_or};
use eval_data::Met;
use pattern_brackets::givens_in;
use spec_table::ClassTable;
use std::alloc::Global;
use vdm_kinds::{Name, OutOfMemory};
use vdm_values::{Slot, Value, ValueList};

/// A pattern meets a value, with the values of the expressions in brackets in it.
pub(crate) fn meet(
    alloc: Global,
    table: &ClassTable,
    locals: &mut Vec<(Name, Slot)>,
    met: Met<'_>,
    value: &Value,
    given: Vec<Value>,
) -> Result<Attempt, OutOfMemory>
    ensures { IfOk result (λ attempt. (place : Place) (matched missed : Locals → Code) → attempted place attempt matched missed locals.new.items ≡ met_given (table_spec table.now) (met_here met.entry).scope place (met_pattern met.entry ∷ []) (value.now ∷ []) matched missed given.items locals.old.items) }
{
    let scope = met_here(met).scope;
    let given = ValueList::from_vec(given);
    bound_or(
        alloc,
        table,
        scope,
        &[met_pattern(met)],
        &given,
        &[value],
        locals,
    )
}

/// A pattern with a value, where the expressions in brackets in it are not evaluated yet.
fn try_pattern<'t>(
    alloc: Global,
    table: &ClassTable,
    locals: &mut Vec<(Name, Slot)>,
    met: Met<'t>,
    value: &Value,
) -> Result<Tried<'t>, OutOfMemory>
    ensures { IfOk result (λ tried. (place : Place) → tried_as (table_spec table.now) met.entry place value.now (missed (table_spec table.now) met.entry place value.now) tried locals.new.items ≡ meets_with (table_spec table.now) met.entry place value.now locals.old.items) }
{
    let found = givens_in(alloc, met_pattern(met))?;
    match first_of(&found) {
        Some(first) => Ok(Tried::Waits(first, found)),
        None => {
            let attempt = meet(alloc, table, locals, met, value, Vec::new(alloc))?;
            Ok(Tried::AtOnce(attempt))
        }
    }
}

/// The pattern that is tried behind one that has missed.
fn further<'t>(met: Met<'t>, tried: &Tried<'t>) -> Option<Met<'t>>
    ensures found { MatchOption result ((spec : SpecTree) (place : Place) (v : ValueTree) (locals : Locals) → tried_as spec met.entry place v (missed spec met.entry place v) tried.now locals ≡ tried_as spec met.entry place v (left_over met.entry place) tried.now locals) (λ next. (spec : SpecTree) (place : Place) (v : ValueTree) (locals : Locals) → tried_as spec met.entry place v (missed spec met.entry place v) tried.now locals ≡ meets_with spec next place v locals) }
    ensures fewer { IfSome result (λ next. further_count next < further_count met.entry) }
{
    match tried {
        Tried::AtOnce(attempt) => match attempt {
            Attempt::Missed => next_of(met),
            Attempt::Matched => None,
            Attempt::Fault(_) => None,
        },
        Tried::Waits(_, _) => None,
    }
}

/// The first pattern from this one on that does not just miss the value, or the last one.
pub(crate) fn settled<'t>(
    alloc: Global,
    table: &ClassTable,
    locals: &mut Vec<(Name, Slot)>,
    first: Met<'t>,
    value: &Value,
) -> Result<Trial<'t>, OutOfMemory>
    ensures { IfOk result (λ trial. (place : Place) → ended_as (table_spec table.now) trial place value.now locals.new.items ≡ meets_with (table_spec table.now) first.entry place value.now locals.old.items) }
{
    let mut met = first;
    let mut tried = try_pattern(alloc, table, locals, met, value)?;
    while let Some(next) = further(met, &tried) {
        met = next;
        tried = try_pattern(alloc, table, locals, met, value)?;
    }
    Ok(Trial { met, tried })
}
