//! What lanes note: their entries, in order, in a room that is made once.
ghost use Rattle.std.specs.Prelude.{◌≡◌, ◌++◌, ◌∷◌, [], IfOk, if◌then◌else◌};

use std::alloc::{AllocError, Global};
use turn_lock::Storied;

#[derive(Drop)]
pub struct Log {
    entries: Vec<u64>,
}

impl Storied for Log {
    type Note = u64;

    ghost story = { λ log. log.entries.items };

    ghost adds_up = { λ _. Unit {0} };
}

impl Log {
    /// A log with room for so many entries.
    pub fn new(alloc: Global, room: usize) -> Result<Log, AllocError> {
        let entries = Vec::with_capacity(alloc, room)?;
        Ok(Log { entries })
    }

    pub fn entries(&self) -> &[u64]
        ensures { result.now ≡ self.now.entries.items }
    {
        self.entries.as_slice()
    }

    /// Adds an entry where there is room, and says whether there was.
    pub fn add(&mut self, entry: u64) -> bool
        ensures { self.new.entries.items ≡ (if result then self.old.entries.items ++ entry ∷ [] else self.old.entries.items) }
    {
        self.entries.len() < self.entries.capacity() && self.entries.push(entry).is_ok()
    }
}
