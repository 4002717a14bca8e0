// Patterns that meet values, one after the other.

ghost use Rattle.std.specs.Prelude.{◌≡◌, ◌≤◌, [], ◌∷◌, ◌++◌, drop, IfOk, MatchOption};
ghost use Rattle.expr_tree.specs.View.{boxed_view};
ghost use Rattle.abstract_syntax.specs.Classes.{SpecTree};
ghost use Rattle.node_meaning.specs.Envs.{Locals};
ghost use Rattle.node_meaning.specs.Matching.{exprs_of};
ghost use Rattle.node_meaning.specs.Strict.{collected, with_others};
ghost use Rattle.node_meaning.specs.Tasks.{evaluated};
ghost use Rattle.spec_table.specs.Tables.{table_spec};
ghost use Rattle.eval_data.specs.Parts.{boxed_list, flow_of, here_of};
ghost use Rattle.step_data.specs.Actions.{action_code, height};
ghost use Rattle.step_data.specs.Meetings.{given_then, meets_value, met_value};
ghost use Rattle.meet_steps.specs.Onwards.{end_height, onward_code};

use crate::onward::Onward;
use crate::parts::part;
use crate::trying::{met, tried};
use eval_data::Flow;
use expr_tree::Expr;
use flow_values::{Came, value_in};
use spec_table::ClassTable;
use std::alloc::Global;
use step_data::{Action, Given, Meeting, Waiting};
use vdm_kinds::{Name, OutOfMemory, RunFault};
use vdm_values::{Slot, Value};

/// A pattern meets a value, and where it does not match it what follows: the next pattern, and so on.
pub fn meets<'t>(
    alloc: Global,
    table: &ClassTable,
    locals: &mut Vec<(Name, Slot)>,
    meeting: Meeting<'t>,
) -> Result<Action<'t>, OutOfMemory>
    ensures same { IfOk result (λ a. action_code (table_spec table.now) locals.new.items a ≡ meets_value (table_spec table.now) meeting.entry locals.old.items) }
    ensures falls { IfOk result (λ a. height a ≤ 1) }
{
    let mut meeting = shared(alloc, meeting)?;
    loop {
        match tried(alloc, table, locals, meeting)? {
            Onward::Meets(next) => meeting = next,
            Onward::Ends(action) => return Ok(action),
        }
    }
}

// What patterns bind are copies of parts of the value, and mostly all of it.
fn shared<'t>(alloc: Global, meeting: Meeting<'t>) -> Result<Meeting<'t>, OutOfMemory>
    ensures { IfOk result (λ m. m ≡ meeting.entry) }
{
    let Meeting {
        here,
        place,
        pattern,
        value,
        follow,
    } = meeting;
    let value = value.share(alloc)?;
    Ok(Meeting {
        here,
        place,
        pattern,
        value,
        follow,
    })
}

/// What follows a pattern that was tried, to its end.
pub(crate) fn followed<'t>(
    alloc: Global,
    table: &ClassTable,
    locals: &mut Vec<(Name, Slot)>,
    onward: Onward<'t>,
) -> Result<Action<'t>, OutOfMemory>
    requires { end_height onward ≤ 1 }
    ensures same { IfOk result (λ a. action_code (table_spec table.now) locals.new.items a ≡ onward_code (table_spec table.now) locals.old.items onward.entry) }
    ensures falls { IfOk result (λ a. height a ≤ 1) }
{
    match onward {
        Onward::Meets(meeting) => meets(alloc, table, locals, meeting),
        Onward::Ends(action) => Ok(action),
    }
}

/// The value of an expression in brackets came: the next one follows, or the pattern meets its value.
pub fn given<'t>(
    alloc: Global,
    table: &ClassTable,
    locals: &mut Vec<(Name, Slot)>,
    given: Box<Given<'t>>,
    flow: Flow,
) -> Result<Action<'t>, OutOfMemory>
    ensures same { IfOk result (λ a. action_code (table_spec table.now) locals.new.items a ≡ given_then (table_spec table.now) given.entry.value (flow_of flow locals.old.items)) }
    ensures falls { IfOk result (λ a. height a ≤ 1) }
{
    match value_in(flow) {
        Came::Is(value) => bracket_came(alloc, table, locals, given, value),
        Came::Nothing => Ok(Action::Fail(RunFault::Undefined, given.meeting.place)),
        Came::Exits(value, from) => Ok(Action::Finish(Flow::Exited(value, from))),
    }
}

fn bracket_came<'t>(
    alloc: Global,
    table: &ClassTable,
    locals: &mut Vec<(Name, Slot)>,
    given: Box<Given<'t>>,
    value: Value,
) -> Result<Action<'t>, OutOfMemory>
    ensures same { IfOk result (λ a. action_code (table_spec table.now) locals.new.items a ≡ collected (here_of given.entry.value.meeting.here) given.entry.value.meeting.place (exprs_of (drop given.entry.value.next (boxed_list given.entry.value.found.items))) (given.entry.value.given.items ++ value ∷ []) (met_value (table_spec table.now) given.entry.value.meeting) locals.old.items) }
    ensures falls { IfOk result (λ a. height a ≤ 1) }
{
    let mut given = given;
    add_value(&mut given, value)?;
    next_bracket(alloc, table, locals, given)
}

fn add_value(given: &mut Given<'_>, value: Value) -> Result<(), OutOfMemory>
    ensures kept { IfOk result (λ _. given.new ≡ record given.old { given = given.new.given }) }
    ensures added { IfOk result (λ _. given.new.given.items ≡ given.old.given.items ++ value ∷ []) }
{
    given.given.push(value)?;
    Ok(())
}

/// The next of them is evaluated, or the pattern meets its value.
fn next_bracket<'t>(
    alloc: Global,
    table: &ClassTable,
    locals: &mut Vec<(Name, Slot)>,
    given: Box<Given<'t>>,
) -> Result<Action<'t>, OutOfMemory>
    ensures same { IfOk result (λ a. action_code (table_spec table.now) locals.new.items a ≡ collected (here_of given.entry.value.meeting.here) given.entry.value.meeting.place (exprs_of (drop given.entry.value.next (boxed_list given.entry.value.found.items))) given.entry.value.given.items (met_value (table_spec table.now) given.entry.value.meeting) locals.old.items) }
    ensures falls { IfOk result (λ a. height a ≤ 1) }
{
    match next_of(&given) {
        Some((tree, next)) => Ok(bracket_part(given, tree, next)),
        None => all_given(alloc, table, locals, given),
    }
}

/// The expression in brackets that comes next, and the number behind it.
fn next_of<'t>(given: &Given<'t>) -> Option<(&'t Box<Expr>, usize)>
    ensures { MatchOption result (drop given.now.next (boxed_list given.now.found.items) ≡ []) (λ p. drop given.now.next (boxed_list given.now.found.items) ≡ boxed_view p.0.now ∷ drop p.1 (boxed_list given.now.found.items)) }
{
    bracket_at(&given.found, given.next)
}

/// One of them is evaluated, behind which that of this number comes.
fn bracket_part<'t>(given: Box<Given<'t>>, tree: &'t Box<Expr>, next: usize) -> Action<'t>
    ensures same { (spec : SpecTree) (locals : Locals) → action_code spec locals result ≡ evaluated (here_of given.entry.value.meeting.here) locals (boxed_view tree.now) given.entry.value.meeting.place (with_others (here_of given.entry.value.meeting.here) given.entry.value.meeting.place (exprs_of (drop next (boxed_list given.entry.value.found.items))) given.entry.value.given.items (met_value spec given.entry.value.meeting)) }
    ensures falls { height result ≤ 1 }
{
    let mut given = given;
    let here = given.meeting.here;
    set_next(&mut given, next);
    part(here, tree, Waiting::Given(given))
}

fn set_next(given: &mut Given<'_>, next: usize)
    ensures { given.new ≡ record given.old { next = next } }
{
    given.next = next;
}

/// The expression at a number, and the number behind it.
fn bracket_at<'t>(found: &[&'t Box<Expr>], at: usize) -> Option<(&'t Box<Expr>, usize)>
    ensures { MatchOption result (drop at (boxed_list found.now) ≡ []) (λ p. drop at (boxed_list found.now) ≡ boxed_view p.0.now ∷ drop p.1 (boxed_list found.now)) }
{
    if at >= found.len() {
        return None;
    }
    Some((found[at], at + 1))
}

/// All of them are there.
fn all_given<'t>(
    alloc: Global,
    table: &ClassTable,
    locals: &mut Vec<(Name, Slot)>,
    given: Box<Given<'t>>,
) -> Result<Action<'t>, OutOfMemory>
    ensures same { IfOk result (λ a. action_code (table_spec table.now) locals.new.items a ≡ met_value (table_spec table.now) given.entry.value.meeting given.entry.value.given.items locals.old.items) }
    ensures falls { IfOk result (λ a. height a ≤ 1) }
{
    let (meeting, given) = Box::into_inner(given).into_parts();
    let onward = met(alloc, table, locals, meeting, given)?;
    followed(alloc, table, locals, onward)
}
