// The entry of a journal.

ghost use Rattle.std.specs.Prelude.{◌≡◌};
ghost use Rattle.run_journal.specs.Made.{entry};

use crate::deed::Deed;
use crate::thread::Thread;

/// One entry of a journal: which thread did what at which object.
#[derive(Debug, Drop)]
pub struct Entry {
    pub thread: Thread,
    /// The number of the object on which the entry stands; 0 where the deed has none of its own.
    pub object: u32,
    pub deed: Deed,
}

impl Entry {
    /// The entry of a thread on the object with this number.
    pub fn new(thread: Thread, object: u32, deed: Deed) -> Entry
        ensures { result ≡ entry thread object deed }
    {
        Entry {
            thread,
            object,
            deed,
        }
    }
}
