// Where a thread is at rest behind an answer.

ghost use Rattle.std.specs.Prelude.{◌≡◌, ◌<◌, ℕ, List, ◌∷◌, IfOk, IsErr};
ghost use Rattle.run_journal.specs.declared.answer.Answer.{Answer as AnswerView};
ghost use Rattle.thread_stack.specs.Standing.{load};
ghost use Rattle.stmt_exec.specs.Resting.{rest_at, rest_weight};

use crate::rest::Rest;
use crate::running::run;
use run_journal::Answer;
use std::alloc::Global;
use thread_stack::Stack;
use thread_stack::handed::next_steps::answered_of;
use vdm_kinds::OutOfMemory;

/// Where the thread is at rest after the answer.
pub(crate) fn rest_after<'t>(
    alloc: Global,
    stack: &mut Stack<'t>,
    rest: Rest<'t>,
    answer: Answer,
) -> Result<Rest<'t>, OutOfMemory>
    ensures same { IfOk result (λ r. (names : List (List ℕ)) (answers : List AnswerView) → rest_at names stack.new r answers ≡ rest_at names stack.old rest.entry (answer ∷ answers)) }
    ensures falls { IfOk result (λ r. load stack.new.levels.items stack.new.fuel (rest_weight r) < load stack.old.levels.items stack.old.fuel (rest_weight rest.entry)) }
    ensures table { stack.new.table ≡ stack.old.table }
    ensures spent { rest.entry ≡ Rest.Spent → IsErr result }
{
    match rest {
        Rest::Asks(asking) => {
            let table = stack.table;
            let action = answered_of(alloc, table, &mut stack.locals, asking, answer)?;
            run(alloc, stack, action)
        }
        Rest::Fails(_, _) => Ok(Rest::Over),
        Rest::Exits(_value, _) => Ok(Rest::Over),
        Rest::Over | Rest::Spent => Err(OutOfMemory),
    }
}
