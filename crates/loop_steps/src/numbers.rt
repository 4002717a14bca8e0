// `for i = a to b by c`: its numbers, from left to right.

ghost use Rattle.std.specs.Prelude.{◌≡◌, ◌≤◌, IfOk};
ghost use Rattle.abstract_syntax.specs.Classes.{SpecTree};
ghost use Rattle.node_meaning.specs.Envs.{Locals};
ghost use Rattle.stmt_meaning.specs.Loops.{on_number};
ghost use Rattle.node_meaning.specs.Tasks.{with_value};
ghost use Rattle.eval_data.specs.Parts.{flow_of};
ghost use Rattle.step_data.specs.Actions.{action_code, behind_by, behind_first, behind_last, height};

use crate::rounds::rounds_from;
use eval_data::{Flow, Here};
use flow_values::{Number, number_in};
use std::alloc::Global;
use step_data::{Action, Counting, ForLoop, Pending, Task, Waiting};
use vdm_kinds::{Name, OutOfMemory, RunFault};
use vdm_values::Slot;

/// The first number came: the last one follows.
pub fn first_number<'t>(here: Here<'t>, rest: ForLoop<'t>, flow: Flow) -> Action<'t>
    ensures same { (spec : SpecTree) (locals : Locals) → action_code spec locals result ≡ with_value rest.entry.place (on_number rest.entry.place (behind_first here.entry rest.entry)) (flow_of flow locals) }
    ensures falls { height result ≤ 1 }
{
    match number_in(flow) {
        Number::Is(first) => counts_on(here, rest, first),
        Number::Fails(fault) => Action::Fail(fault, rest.place),
        Number::Exits(value, from) => Action::Finish(Flow::Exited(value, from)),
    }
}

fn counts_on<'t>(here: Here<'t>, rest: ForLoop<'t>, first: i128) -> Action<'t>
    ensures same { (spec : SpecTree) (locals : Locals) → action_code spec locals result ≡ behind_first here.entry rest.entry first locals }
    ensures falls { height result ≤ 1 }
{
    Action::Part(
        Task::Expr(here, rest.last),
        Pending {
            waiting: Waiting::Last(here, rest, first),
        },
    )
}

/// The last number came: the size of the steps follows, which is 1 where nothing else is said.
pub fn last_number<'t>(
    alloc: Global,
    locals: &mut Vec<(Name, Slot)>,
    here: Here<'t>,
    rest: ForLoop<'t>,
    first: i128,
    flow: Flow,
) -> Result<Action<'t>, OutOfMemory>
    ensures same { IfOk result (λ a. (spec : SpecTree) → action_code spec locals.new.items a ≡ with_value rest.entry.place (on_number rest.entry.place (behind_last here.entry rest.entry first)) (flow_of flow locals.old.items)) }
    ensures falls { IfOk result (λ a. height a ≤ 1) }
{
    match number_in(flow) {
        Number::Is(last) => counts_to(alloc, locals, here, rest, first, last),
        Number::Fails(fault) => Ok(Action::Fail(fault, rest.place)),
        Number::Exits(value, from) => Ok(Action::Finish(Flow::Exited(value, from))),
    }
}

fn counts_to<'t>(
    alloc: Global,
    locals: &mut Vec<(Name, Slot)>,
    here: Here<'t>,
    rest: ForLoop<'t>,
    first: i128,
    last: i128,
) -> Result<Action<'t>, OutOfMemory>
    ensures same { IfOk result (λ a. (spec : SpecTree) → action_code spec locals.new.items a ≡ behind_last here.entry rest.entry first last locals.old.items) }
    ensures falls { IfOk result (λ a. height a ≤ 1) }
{
    match rest.by {
        Some(by) => {
            let waiting = Waiting::By(here, rest, first, last);
            Ok(Action::Part(Task::Expr(here, by), Pending { waiting }))
        }
        None => counts_by(alloc, locals, here, rest, first, last, 1),
    }
}

/// The size of the steps came: the rounds follow.
pub fn by_number<'t>(
    alloc: Global,
    locals: &mut Vec<(Name, Slot)>,
    here: Here<'t>,
    rest: ForLoop<'t>,
    first: i128,
    last: i128,
    flow: Flow,
) -> Result<Action<'t>, OutOfMemory>
    ensures same { IfOk result (λ a. (spec : SpecTree) → action_code spec locals.new.items a ≡ with_value rest.entry.place (on_number rest.entry.place (behind_by here.entry rest.entry first last)) (flow_of flow locals.old.items)) }
    ensures falls { IfOk result (λ a. height a ≤ 1) }
{
    match number_in(flow) {
        Number::Is(step) => counts_by(alloc, locals, here, rest, first, last, step),
        Number::Fails(fault) => Ok(Action::Fail(fault, rest.place)),
        Number::Exits(value, from) => Ok(Action::Finish(Flow::Exited(value, from))),
    }
}

/// The rounds by steps of this size. Steps of 0 lead nowhere.
fn counts_by<'t>(
    alloc: Global,
    locals: &mut Vec<(Name, Slot)>,
    here: Here<'t>,
    rest: ForLoop<'t>,
    first: i128,
    last: i128,
    step: i128,
) -> Result<Action<'t>, OutOfMemory>
    ensures same { IfOk result (λ a. (spec : SpecTree) → action_code spec locals.new.items a ≡ behind_by here.entry rest.entry first last step locals.old.items) }
    ensures falls { IfOk result (λ a. height a ≤ 1) }
{
    if step == 0 {
        return Ok(Action::Fail(RunFault::TypeFault, rest.place));
    }
    let counting = Counting {
        name: rest.name,
        count: locals.len(),
        at: first,
        step,
        last,
        body: rest.body,
    };
    rounds_from(alloc, locals, here, counting)
}
