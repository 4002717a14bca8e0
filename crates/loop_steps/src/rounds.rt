// Rounds of loops.

ghost use Rattle.std.specs.Prelude.{◌≡◌, ◌≤◌, IfOk};
ghost use Rattle.abstract_syntax.specs.Classes.{SpecTree};
ghost use Rattle.stmt_meaning.specs.Loops.{counted as counted_plan, next_number, rounds_from as rounds_plan};
ghost use Rattle.stmt_meaning.specs.Loops.{is_passed as is_passed_plan};
ghost use Rattle.eval_data.specs.Parts.{here_of, flow_of};
ghost use Rattle.step_data.specs.Parts.{counting_of};
ghost use Rattle.step_data.specs.Actions.{action_code, height};

use eval_data::{Flow, Here};
use std::alloc::Global;
use step_data::{Action, Counting, Round};
use vdm_kinds::{Name, OutOfMemory};
use vdm_values::{Node, Slot, Value};

/// Behind the body of a round the next one follows, unless the body ended.
pub fn counted<'t>(
    alloc: Global,
    locals: &mut Vec<(Name, Slot)>,
    here: Here<'t>,
    counting: Counting<'t>,
    flow: Flow,
) -> Result<Action<'t>, OutOfMemory>
    ensures same { IfOk result (λ a. (spec : SpecTree) → action_code spec locals.new.items a ≡ counted_plan (here_of here.entry) (counting_of counting.entry) (flow_of flow locals.old.items)) }
    ensures falls { IfOk result (λ a. height a ≤ 1) }
{
    locals.truncate(counting.count);
    match flow {
        Flow::Next => next_round(alloc, locals, here, counting),
        Flow::Gave(slot) => Ok(Action::Finish(Flow::Gave(slot))),
        Flow::Returned(slot) => Ok(Action::Finish(Flow::Returned(slot))),
        Flow::Exited(value, from) => Ok(Action::Finish(Flow::Exited(value, from))),
    }
}

/// The round with the next number. A number past the largest or the smallest stands behind the last one.
fn next_round<'t>(
    alloc: Global,
    locals: &mut Vec<(Name, Slot)>,
    here: Here<'t>,
    counting: Counting<'t>,
) -> Result<Action<'t>, OutOfMemory>
    ensures same { IfOk result (λ a. (spec : SpecTree) → action_code spec locals.new.items a ≡ rounds_plan (here_of here.entry) (next_number (counting_of counting.entry)) locals.old.items) }
    ensures falls { IfOk result (λ a. height a ≤ 1) }
{
    match counting.at.checked_add(counting.step) {
        Some(at) => {
            let next = Counting { at, ..counting };
            rounds_from(alloc, locals, here, next)
        }
        None => Ok(Action::Finish(Flow::Next)),
    }
}

/// The rounds from this number on, each with the number as a local.
pub(crate) fn rounds_from<'t>(
    alloc: Global,
    locals: &mut Vec<(Name, Slot)>,
    here: Here<'t>,
    counting: Counting<'t>,
) -> Result<Action<'t>, OutOfMemory>
    ensures same { IfOk result (λ a. (spec : SpecTree) → action_code spec locals.new.items a ≡ rounds_plan (here_of here.entry) (counting_of counting.entry) locals.old.items) }
    ensures falls { IfOk result (λ a. height a ≤ 1) }
{
    if is_passed(counting) {
        return Ok(Action::Finish(Flow::Next));
    }
    let number = Value::new(Node::Int(counting.at));
    locals.push((counting.name, Slot::Held(number)))?;
    Ok(Action::Round(here, Round::Counts(counting)))
}

/// Whether the number stands behind the last one, in the direction of the steps.
fn is_passed(counting: Counting<'_>) -> bool
    ensures { result ≡ is_passed_plan (counting_of counting.entry) }
{
    if counting.step > 0 {
        counting.at > counting.last
    } else {
        counting.at < counting.last
    }
}
