// How a run ends.

ghost use Rattle.std.specs.Prelude.{◌≡◌, IfOk};
ghost use Rattle.std.specs.Option.{option_map};
ghost use Rattle.plain_state.specs.Finishes.{finishes};
ghost use Rattle.vdm_legal.specs.Finishes.{decided, finish_of};

use run_journal::{Deed, Entry, EntryList, Thread};
use std::alloc::Global;
use vdm_kinds::{OutOfMemory, Place, RunFault};
use vdm_values::Slot;

/// What decides a run.
#[derive(Drop)]
pub enum Finish {
    /// Main ended, with this value.
    Ended(Slot),
    /// A thread failed at `place`, with the value that left it where that is the fault.
    Failed {
        fault: RunFault,
        exit: Slot,
        thread: Thread,
        place: Place,
    },
}

/// The first end of main or failure of any thread; `None` where the run goes on. Its value is a copy.
pub fn finish_of(alloc: Global, entries: &EntryList) -> Result<Option<Finish>, OutOfMemory>
    ensures { IfOk result (λ finish. option_map finishes finish ≡ finish_of entries.now) }
{
    for entry in entries.as_slice() {
        let finish = decided(alloc, entry)?;
        if finish.is_some() {
            return Ok(finish);
        }
    }
    Ok(None)
}

/// What one entry decides. Its value is a copy.
pub fn decided(alloc: Global, entry: &Entry) -> Result<Option<Finish>, OutOfMemory>
    ensures { IfOk result (λ finish. option_map finishes finish ≡ decided entry.now.thread entry.now.deed) }
{
    match (entry.thread, &entry.deed) {
        (Thread::Main, Deed::End { value }) => Ok(Some(Finish::Ended(value.copy(alloc)?))),
        (thread, Deed::Fail { fault, exit, place }) => Ok(Some(Finish::Failed {
            fault: *fault,
            exit: exit.copy(alloc)?,
            thread,
            place: *place,
        })),
        _ => Ok(None),
    }
}
