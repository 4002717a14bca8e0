// A thread acts until it is at rest.

ghost use Rattle.std.specs.Prelude.{◌≡◌, ◌≤◌, ℕ, List, IfOk};
ghost use Rattle.run_journal.specs.declared.answer.Answer.{Answer as AnswerView};
ghost use Rattle.step_data.specs.Actions.{height};
ghost use Rattle.vdm_meaning.specs.Main.{standing_of};
ghost use Rattle.thread_stack.specs.Standing.{load, stands_with};
ghost use Rattle.stmt_exec.specs.Resting.{rest_at, rest_weight};

use crate::rest::Rest;
use eval_data::Flow;
use std::alloc::Global;
use step_data::Action;
use thread_stack::Stack;
use vdm_kinds::OutOfMemory;

/// Acts until the thread is at rest, and says where.
pub(crate) fn run<'t>(
    alloc: Global,
    stack: &mut Stack<'t>,
    action: Action<'t>,
) -> Result<Rest<'t>, OutOfMemory>
    ensures same { IfOk result (λ r. (names : List (List ℕ)) (answers : List AnswerView) → rest_at names stack.new r answers ≡ standing_of names (stands_with stack.old action.entry answers)) }
    ensures low { IfOk result (λ r. load stack.new.levels.items stack.new.fuel (rest_weight r) ≤ load stack.old.levels.items stack.old.fuel (height action.entry)) }
    ensures table { stack.new.table ≡ stack.old.table }
{
    let mut action = action;
    'actions: loop {
        action = match action {
            Action::Finish(flow) => match stack.levels.pop() {
                Some(level) => stack.go_on(alloc, level, flow)?,
                None => return Ok(over(flow)),
            },
            Action::Part(task, waiting) => stack.enter(alloc, task, waiting)?,
            Action::Become(task) => stack.begin(alloc, task)?,
            Action::Round(here, round) => stack.round(alloc, here, round)?,
            Action::Block(rest) => stack.block(alloc, rest)?,
            Action::Test(test) => stack.test(alloc, test)?,
            Action::Fit(fit) => stack.fit(alloc, fit)?,
            Action::Begin(call) => stack.call(alloc, call)?,
            Action::Need(need, place, after) => stack.need(alloc, need, place, after)?,
            Action::Fail(fault, place) => {
                return Ok(Rest::Fails(fault, stack.around.nest.place(place)));
            }
            Action::Uncaught(value, place) => {
                return Ok(Rest::Exits(value, stack.around.nest.place(place)));
            }
            Action::Ask(asking) => return Ok(Rest::Asks(asking)),
        };
    }
}

/// What came of the whole plan is told by its last question.
fn over<'t>(_flow: Flow) -> Rest<'t>
    ensures { result ≡ Rest.Over }
{
    Rest::Over
}
