// A pattern that is tried with its value, and what follows.

ghost use Rattle.std.specs.Prelude.{◌≡◌, ◌≤◌, [], ◌∷◌, drop, IfOk, MatchOption};
ghost use Rattle.vdm_kinds.specs.declared.place.Place.{Place as PlaceOf};
ghost use Rattle.abstract_syntax.specs.Classes.{SpecTree};
ghost use Rattle.expr_tree.specs.View.{boxed_view, pattern_view};
ghost use Rattle.node_meaning.specs.Envs.{Locals};
ghost use Rattle.node_meaning.specs.Matching.{exprs_of, met as met_plan};
ghost use Rattle.node_meaning.specs.Strict.{with_others};
ghost use Rattle.node_meaning.specs.Tasks.{Code, evaluated};
ghost use Rattle.spec_table.specs.Tables.{table_spec};
ghost use Rattle.bind_steps.specs.Attempts.{attempted};
ghost use Rattle.eval_data.specs.Parts.{boxed_list, here_of};
ghost use Rattle.step_data.specs.Actions.{action_code, height};
ghost use Rattle.step_data.specs.Meetings.{meets_value, met_value};
ghost use Rattle.meet_steps.specs.Onwards.{end_height, further_count, left_in, matched_there, missed_there, onward_code};

use crate::choices::next_case;
use crate::defining::definitions;
use crate::elements::{element_behind, element_body};
use crate::handlers::next_handler;
use crate::onward::Onward;
use crate::parts::{part, within};
use bind_steps::{Attempt, bound_or};
use eval_data::Flow;
use expr_tree::Expr;
use pattern_brackets::givens_in;
use spec_table::ClassTable;
use std::alloc::Global;
use step_data::{Action, Follow, Given, Meeting, Round, Waiting};
use vdm_kinds::{Name, OutOfMemory, RunFault};
use vdm_values::{Slot, Value, ValueList};

/// A pattern meets its value: the expressions in brackets in it come first, where there are any.
pub(crate) fn tried<'t>(
    alloc: Global,
    table: &ClassTable,
    locals: &mut Vec<(Name, Slot)>,
    meeting: Meeting<'t>,
) -> Result<Onward<'t>, OutOfMemory>
    ensures same { IfOk result (λ o. onward_code (table_spec table.now) locals.new.items o ≡ meets_value (table_spec table.now) meeting.entry locals.old.items) }
    ensures falls { IfOk result (λ o. end_height o ≤ 1) }
    ensures fewer { IfOk result (λ o. left_in o ≤ further_count meeting.entry.follow) }
{
    let found = givens_in(alloc, meeting.pattern)?;
    match first_of(&found) {
        Some(first) => {
            let action = waiting(alloc, meeting, first, found)?;
            Ok(Onward::Ends(action))
        }
        None => met(alloc, table, locals, meeting, Vec::new(alloc)),
    }
}

/// The first of the expressions in brackets.
fn first_of<'t>(found: &[&'t Box<Expr>]) -> Option<&'t Box<Expr>>
    ensures { MatchOption result (boxed_list found.now ≡ []) (λ first. boxed_list found.now ≡ boxed_view first.now ∷ drop 1 (boxed_list found.now)) }
{
    found.first().copied()
}

/// The first of the expressions in brackets, and behind it the others and the pattern.
fn waiting<'t>(
    alloc: Global,
    meeting: Meeting<'t>,
    first: &'t Box<Expr>,
    found: Vec<&'t Box<Expr>>,
) -> Result<Action<'t>, OutOfMemory>
    ensures same { IfOk result (λ a. (spec : SpecTree) (locals : Locals) → action_code spec locals a ≡ evaluated (here_of meeting.entry.here) locals (boxed_view first.now) meeting.entry.place (with_others (here_of meeting.entry.here) meeting.entry.place (exprs_of (drop 1 (boxed_list found.entry.items))) [] (met_value spec meeting.entry))) }
    ensures falls { IfOk result (λ a. height a ≤ 1) }
{
    let here = meeting.here;
    let given = Vec::new(alloc);
    let given = Box::new(
        alloc,
        Given {
            meeting,
            found,
            next: 1,
            given,
        },
    )?;
    Ok(part(here, first, Waiting::Given(given)))
}

/// A pattern meets its value, with the values of the expressions in brackets in it.
pub(crate) fn met<'t>(
    alloc: Global,
    table: &ClassTable,
    locals: &mut Vec<(Name, Slot)>,
    meeting: Meeting<'t>,
    given: Vec<Value>,
) -> Result<Onward<'t>, OutOfMemory>
    ensures same { IfOk result (λ o. onward_code (table_spec table.now) locals.new.items o ≡ met_value (table_spec table.now) meeting.entry given.items locals.old.items) }
    ensures falls { IfOk result (λ o. end_height o ≤ 1) }
    ensures fewer { IfOk result (λ o. left_in o ≤ further_count meeting.entry.follow) }
{
    let attempt = attempt(alloc, table, locals, &meeting, given)?;
    answered(alloc, meeting, attempt)
}

fn attempt(
    alloc: Global,
    table: &ClassTable,
    locals: &mut Vec<(Name, Slot)>,
    meeting: &Meeting<'_>,
    given: Vec<Value>,
) -> Result<Attempt, OutOfMemory>
    ensures { IfOk result (λ attempt. (place : PlaceOf) (matched missed : Locals → Code) → attempted place attempt matched missed locals.new.items ≡ met_plan (table_spec table.now) (here_of meeting.now.here).scope place (pattern_view meeting.now.pattern.now ∷ []) (meeting.now.value ∷ []) matched missed given.items locals.old.items) }
{
    let scope = meeting.here.scope;
    let given = ValueList::from_vec(given);
    bound_or(
        alloc,
        table,
        scope,
        &[meeting.pattern],
        &given,
        &[&meeting.value],
        locals,
    )
}

/// What follows, by what came of the pattern.
fn answered<'t>(
    alloc: Global,
    meeting: Meeting<'t>,
    attempt: Attempt,
) -> Result<Onward<'t>, OutOfMemory>
    ensures same { IfOk result (λ o. (spec : SpecTree) (locals : Locals) → onward_code spec locals o ≡ attempted meeting.entry.place attempt (matched_there spec meeting.entry) (missed_there spec meeting.entry) locals) }
    ensures falls { IfOk result (λ o. end_height o ≤ 1) }
    ensures fewer { IfOk result (λ o. left_in o ≤ further_count meeting.entry.follow) }
{
    match attempt {
        Attempt::Matched => {
            let action = matched(alloc, meeting)?;
            Ok(Onward::Ends(action))
        }
        Attempt::Missed => Ok(missed(meeting)),
        Attempt::Fault(fault) => Ok(Onward::Ends(Action::Fail(fault, meeting.place))),
    }
}

/// Where the pattern matches its value.
fn matched<'t>(alloc: Global, meeting: Meeting<'t>) -> Result<Action<'t>, OutOfMemory>
    ensures same { IfOk result (λ a. (spec : SpecTree) (locals : Locals) → action_code spec locals a ≡ matched_there spec meeting.entry locals) }
    ensures falls { IfOk result (λ a. height a ≤ 1) }
{
    let Meeting {
        here,
        place,
        pattern,
        value: _value,
        follow,
    } = meeting;
    match follow {
        Follow::Definition(more, body, count) => {
            definitions(alloc, here, more, body, count, place)
        }
        Follow::Case(_, body, _, _, count) => Ok(within(here, body, count)),
        Follow::Element(body, left, count) => {
            element_body(alloc, here, place, pattern, body, count, left)
        }
        Follow::Trap(handler, _, count) => Ok(within(here, handler, count)),
        Follow::Tixe(all, _, body, _, count) => {
            Ok(Action::Round(here, Round::Handles(all, count, body, place)))
        }
    }
}

/// Where it does not match: the next pattern, or what is done where none is left.
fn missed<'t>(meeting: Meeting<'t>) -> Onward<'t>
    ensures same { (spec : SpecTree) (locals : Locals) → onward_code spec locals result ≡ missed_there spec meeting.entry locals }
    ensures falls { end_height result ≤ 1 }
    ensures fewer { left_in result ≤ further_count meeting.entry.follow }
{
    let Meeting {
        here,
        place,
        pattern,
        value,
        follow,
    } = meeting;
    match follow {
        Follow::Definition(_, _, _) => Onward::Ends(Action::Fail(RunFault::NoMatch, place)),
        Follow::Case(patterns, body, more, others, count) => {
            next_case(here, place, value, patterns, body, more, others, count)
        }
        Follow::Element(body, left, count) => {
            element_behind(here, place, pattern, body, count, left)
        }
        Follow::Trap(_, from, _) => Onward::Ends(Action::Finish(Flow::Exited(value, from))),
        Follow::Tixe(all, others, _, from, count) => {
            next_handler(here, place, value, all, others, from, count)
        }
    }
}
