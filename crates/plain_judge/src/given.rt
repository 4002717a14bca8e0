// What an entry's thread was answered.

ghost use Rattle.std.specs.Prelude.{◌≡◌, IfOk};
ghost use Rattle.run_journal.specs.Made.{answer_of};

use run_journal::{Answer, Deed, Entry, HostAnswer};
use std::alloc::Global;
use vdm_kinds::OutOfMemory;

/// A copy of the answer that the entry tells.
pub(crate) fn answer_of(alloc: Global, entry: &Entry) -> Result<Answer, OutOfMemory>
    ensures { IfOk result (λ a. a ≡ answer_of entry.now) }
{
    Ok(match &entry.deed {
        Deed::New { .. } => Answer::Object(entry.object),
        Deed::ActFault { inner, .. } => Answer::Inner(*inner),
        Deed::Read { value, .. } => Answer::Slot(value.copy(alloc)?),
        Deed::Write { refused: true, .. } | Deed::Start { refused: true } => Answer::Refused,
        Deed::Host { answer, .. } => Answer::Host(copy_of(alloc, answer)?),
        Deed::Time { ticks } => Answer::Ticks(*ticks),
        _ => Answer::Done,
    })
}

/// A copy of a host function's answer.
fn copy_of(alloc: Global, answer: &HostAnswer) -> Result<HostAnswer, OutOfMemory>
    ensures { IfOk result (λ a. a ≡ answer.now) }
{
    match answer {
        HostAnswer::Given(value) => Ok(HostAnswer::Given(value.copy(alloc)?)),
        HostAnswer::Refused => Ok(HostAnswer::Refused),
    }
}
