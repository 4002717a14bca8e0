// Values that are written.

ghost use Rattle.std.specs.Prelude.{◌≡◌, ◌≤◌, IfOk};
ghost use Rattle.abstract_syntax.specs.Classes.{SpecTree};
ghost use Rattle.node_meaning.specs.Envs.{Locals};
ghost use Rattle.node_meaning.specs.Tasks.{with_value};
ghost use Rattle.plans.specs.Plans.{bind};
ghost use Rattle.stmt_meaning.specs.Questions.{of_thread};
ghost use Rattle.stmt_meaning.specs.Targets.{set_newest as set_newest_of, stored as stored_plan, written as written_plan};
ghost use Rattle.vdm_values.specs.declared.slot.Slot.TheVariants.{Held};
ghost use Rattle.eval_data.specs.Parts.{flow_of};
ghost use Rattle.fit_steps.specs.Tests.{tested_code};
ghost use Rattle.step_data.specs.Actions.{action_code, height};
ghost use Rattle.step_data.specs.Goals.{goal_view};

use eval_data::Flow;
use fit_steps::Tested;
use flow_values::{Came, value_in};
use run_journal::Answer;
use std::alloc::Global;
use step_data::{Action, Asking, Goal, Waiting};
use target_values::set_newest;
use vdm_kinds::{Name, OutOfMemory, Place, RunFault};
use vdm_values::{Slot, Value};

/// Where the value fits its type, it is written.
pub(crate) fn store_tested<'t>(
    alloc: Global,
    locals: &mut Vec<(Name, Slot)>,
    goal: Goal<'t>,
    place: Place,
    tested: Tested<'t>,
) -> Result<Action<'t>, OutOfMemory>
    ensures same { IfOk result (λ a. (spec : SpecTree) → action_code spec locals.new.items a ≡ bind (tested_code (of_thread spec) place locals.old.items tested.entry) (with_value place (stored_plan place (goal_view goal.entry)))) }
    ensures falls { IfOk result (λ a. height a ≤ 2) }
{
    match tested {
        Tested::Gives(value) => stored(alloc, locals, goal, place, value),
        Tested::Fails(fault) => Ok(Action::Fail(fault, place)),
        Tested::Asks(here, tree, inner) => {
            Action::fit(alloc, here, tree, inner, Waiting::Store(goal, place))
        }
    }
}

/// What came fits the type, where it is a value, and is written.
pub fn store_value<'t>(
    alloc: Global,
    locals: &mut Vec<(Name, Slot)>,
    goal: Goal<'t>,
    place: Place,
    flow: Flow,
) -> Result<Action<'t>, OutOfMemory>
    ensures same { IfOk result (λ a. (spec : SpecTree) → action_code spec locals.new.items a ≡ with_value place (stored_plan place (goal_view goal.entry)) (flow_of flow locals.old.items)) }
    ensures falls { IfOk result (λ a. height a ≤ 2) }
{
    match value_in(flow) {
        Came::Is(value) => stored(alloc, locals, goal, place, value),
        Came::Nothing => Ok(Action::Fail(RunFault::Undefined, place)),
        Came::Exits(value, from) => Ok(Action::Finish(Flow::Exited(value, from))),
    }
}

/// A local variable has the value at once; that of a variable of the object is asked to be written.
pub(crate) fn stored<'t>(
    alloc: Global,
    locals: &mut Vec<(Name, Slot)>,
    goal: Goal<'t>,
    place: Place,
    value: Value,
) -> Result<Action<'t>, OutOfMemory>
    ensures same { IfOk result (λ a. (spec : SpecTree) → action_code spec locals.new.items a ≡ stored_plan place (goal_view goal.entry) value locals.old.items) }
    ensures falls { IfOk result (λ a. height a ≤ 2) }
{
    match goal {
        Goal::Local(name, _) => {
            local_stored(alloc, locals, name, value)?;
            Ok(Action::Finish(Flow::Next))
        }
        Goal::Variable(me, var, _) => Ok(Action::Ask(Asking::Write(me, var, value, place))),
    }
}

/// The value is shared, so that each look-up of the local variable takes constant time.
fn local_stored(
    alloc: Global,
    locals: &mut Vec<(Name, Slot)>,
    name: Name,
    value: Value,
) -> Result<(), OutOfMemory>
    ensures { IfOk result (λ _. locals.new.items ≡ set_newest_of name (Held value) locals.old.items) }
{
    let value = value.share(alloc)?;
    set_newest(locals, name, Slot::Held(value));
    Ok(())
}

/// What follows a write. One that was refused breaks an instance invariant.
pub fn written<'t>(place: Place, answer: Answer) -> Action<'t>
    ensures same { (spec : SpecTree) (locals : Locals) → action_code spec locals result ≡ written_plan place locals answer }
    ensures falls { height result ≤ 1 }
{
    match answer {
        Answer::Refused => Action::Fail(RunFault::InstanceInvariant, place),
        _ => Action::Finish(Flow::Next),
    }
}
