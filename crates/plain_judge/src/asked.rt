// Whether a thread asks for an entry.

ghost use Rattle.std.specs.Prelude.{◌≡◌, ◌↔◌, [], IfOk, IsTrue, OnOk, Some};
ghost use Rattle.run_journal.specs.Made.{answer_of, made};
ghost use Rattle.plain_judge.specs.Asked.{IsAskedFor};
ghost use Rattle.stmt_exec.specs.Standing.{rest};

use crate::given::answer_of;
use journal_entries::{entry_made, same_entry};
use run_journal::{Entry, Question, Thread};
use std::alloc::Global;
use stmt_exec::Machine;
use vdm_kinds::OutOfMemory;

/// Whether the entry is made of what the thread asks and of the entry's own answer. Nothing stands behind a thread's end.
pub(crate) fn is_asked_for(
    alloc: Global,
    thread: Thread,
    machine: &mut Machine<'_>,
    entry: &Entry,
) -> Result<bool, OutOfMemory>
    ensures asked { IfOk result (λ b. IsTrue b ↔ IsAskedFor thread (rest machine.old []) entry.now) }
    ensures kept { OnOk result (machine.new ≡ machine.old) }
{
    if machine.over() {
        return Ok(false);
    }
    let question = machine.next(alloc)?;
    is_made_of(alloc, thread, question, entry)
}

/// Whether the entry is made of the thread's question and of the entry's own answer.
fn is_made_of(
    alloc: Global,
    thread: Thread,
    question: Question,
    entry: &Entry,
) -> Result<bool, OutOfMemory>
    ensures { IfOk result (λ b. IsTrue b ↔ (made thread question (answer_of entry.now) ≡ Some entry.now)) }
{
    let answer = answer_of(alloc, entry)?;
    match entry_made(thread, question, answer) {
        Some(made) => Ok(same_entry(&made, entry)),
        None => Ok(false),
    }
}
