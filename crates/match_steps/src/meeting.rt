// Patterns that meet values.

ghost use Rattle.std.specs.Prelude.{◌≡◌, [], drop, IfOk};
ghost use Rattle.expr_tree.specs.View.{boxed_view};
ghost use Rattle.node_meaning.specs.Envs.{Locals};
ghost use Rattle.node_meaning.specs.Matching.{exprs_of};
ghost use Rattle.node_meaning.specs.Needs.{Asker, Setting};
ghost use Rattle.node_meaning.specs.Strict.{with_others};
ghost use Rattle.node_meaning.specs.Tasks.{evaluated};
ghost use Rattle.eval_data.specs.Parts.{boxed_list};
ghost use Rattle.eval_data.specs.Steps.{code_of, matched, meets_with, met_here, met_with, missed};
ghost use Rattle.spec_table.specs.Tables.{table_spec};
ghost use Rattle.bind_steps.specs.Attempts.{attempted};
ghost use Rattle.match_steps.specs.Trials.{ended_as, left_over};

use crate::alternatives::{left_over, next_of};
use crate::definitions::defined;
use crate::parts::{met_here, part, within};
use crate::trial::{Trial, Tried};
use crate::trying::{meet, settled};
use bind_steps::Attempt;
use eval_data::{Collecting, Frame, Met, Parts, Step, Then, Use};
use expr_tree::Expr;
use spec_table::ClassTable;
use std::alloc::Global;
use vdm_kinds::{Name, OutOfMemory, Place};
use vdm_values::{Slot, Value};

/// A pattern meets a value: the expressions in brackets in it come first, where there are any.
pub fn meets<'t>(
    alloc: Global,
    table: &ClassTable,
    locals: &mut Vec<(Name, Slot)>,
    met: Met<'t>,
    place: Place,
    value: Value,
) -> Result<Step<'t>, OutOfMemory>
    ensures { IfOk result (λ s. (asker : Asker) → code_of (record { spec = table_spec table.now; asker = asker }) locals.new.items s ≡ meets_with (table_spec table.now) met.entry place value locals.old.items) }
{
    // (what patterns bind are copies of parts of it, and mostly all of it)
    let value = value.share(alloc)?;
    let trial = settled(alloc, table, locals, met, &value)?;
    ended(alloc, trial, place, value)
}

/// ... and the values of the expressions in brackets in it are there.
pub fn met_with<'t>(
    alloc: Global,
    table: &ClassTable,
    locals: &mut Vec<(Name, Slot)>,
    met: Met<'t>,
    place: Place,
    value: Value,
    given: Vec<Value>,
) -> Result<Step<'t>, OutOfMemory>
    ensures { IfOk result (λ s. (asker : Asker) → code_of (record { spec = table_spec table.now; asker = asker }) locals.new.items s ≡ met_with (table_spec table.now) met.entry place value given.items locals.old.items) }
{
    let attempt = meet(alloc, table, locals, met, &value, given)?;
    answered(alloc, table, locals, met, place, value, attempt)
}

// What follows, by what came of the pattern.
fn answered<'t>(
    alloc: Global,
    table: &ClassTable,
    locals: &mut Vec<(Name, Slot)>,
    met: Met<'t>,
    place: Place,
    value: Value,
    attempt: Attempt,
) -> Result<Step<'t>, OutOfMemory>
    ensures { IfOk result (λ s. (asker : Asker) → code_of (record { spec = table_spec table.now; asker = asker }) locals.new.items s ≡ attempted place attempt (matched (table_spec table.now) met.entry place) (missed (table_spec table.now) met.entry place value) locals.old.items) }
{
    match attempt {
        Attempt::Matched => Ok(matched(met, place)),
        Attempt::Missed => missed(alloc, table, locals, met, place, value),
        Attempt::Fault(fault) => Ok(Step::Fail(fault, place)),
    }
}

// Where the pattern matches.
fn matched<'t>(met: Met<'t>, place: Place) -> Step<'t>
    ensures { (setting : Setting) (locals : Locals) → code_of setting locals result ≡ matched setting.spec met.entry place locals }
{
    match met {
        Met::Definition(here, definition) => {
            defined(
                here,
                definition.count,
                definition.more,
                definition.body,
                place,
            )
        }
        Met::Case(here, case) => within(here, case.count, case.body),
    }
}

// Where it does not match.
fn missed<'t>(
    alloc: Global,
    table: &ClassTable,
    locals: &mut Vec<(Name, Slot)>,
    met: Met<'t>,
    place: Place,
    value: Value,
) -> Result<Step<'t>, OutOfMemory>
    ensures { IfOk result (λ s. (asker : Asker) → code_of (record { spec = table_spec table.now; asker = asker }) locals.new.items s ≡ missed (table_spec table.now) met.entry place value locals.old.items) }
{
    match next_of(met) {
        Some(next) => meets(alloc, table, locals, next, place, value),
        None => Ok(left_over(met, place)),
    }
}

// What came of the last pattern that was tried.
fn ended<'t>(
    alloc: Global,
    trial: Trial<'t>,
    place: Place,
    value: Value,
) -> Result<Step<'t>, OutOfMemory>
    ensures { IfOk result (λ s. (setting : Setting) (locals : Locals) → code_of setting locals s ≡ ended_as setting.spec trial.entry place value locals) }
{
    let Trial { met, tried } = trial;
    match tried {
        Tried::AtOnce(attempt) => Ok(ended_at_once(met, attempt, place)),
        Tried::Waits(first, found) => waiting(alloc, met, place, value, first, found),
    }
}

fn ended_at_once<'t>(met: Met<'t>, attempt: Attempt, place: Place) -> Step<'t>
    ensures { (setting : Setting) (locals : Locals) → code_of setting locals result ≡ attempted place attempt (matched setting.spec met.entry place) (left_over met.entry place) locals }
{
    match attempt {
        Attempt::Matched => matched(met, place),
        Attempt::Missed => left_over(met, place),
        Attempt::Fault(fault) => Step::Fail(fault, place),
    }
}

// The first of the expressions in brackets, and behind it the others and the pattern.
fn waiting<'t>(
    alloc: Global,
    met: Met<'t>,
    place: Place,
    value: Value,
    first: &'t Box<Expr>,
    found: Vec<&'t Box<Expr>>,
) -> Result<Step<'t>, OutOfMemory>
    ensures { IfOk result (λ s. (setting : Setting) (locals : Locals) → code_of setting locals s ≡ evaluated (met_here met.entry) locals (boxed_view first.now) place (with_others (met_here met.entry) place (exprs_of (drop 1 (boxed_list found.entry.items))) [] (met_with setting.spec met.entry place value))) }
{
    let here = met_here(met);
    let rest = Parts::Brackets(found, 1);
    let then = Then::Meets(value, met);
    let done = Vec::new(alloc);
    let collecting = Box::new(
        alloc,
        Collecting {
            here,
            place,
            rest,
            done,
            then,
        },
    )?;
    Ok(part(here, first, Frame::With(Use::Collect(collecting), place)))
}
