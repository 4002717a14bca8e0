// Memory of readings that are over.

ghost use Rattle.std.specs.Prelude.{◌≡◌, [], ◌∷◌, ◌++◌, OnOk};

use crate::open_parts::OpenParts;
use std::alloc::Global;
use vdm_kinds::OutOfMemory;

/// The parts of readings that are over. A copy of a reading takes their memory: each `(` where a statement is wanted makes a
/// copy, and most of these are soon lost.
#[derive(Drop)]
pub(crate) struct Spares {
    alloc: Global,
    parts: Vec<OpenParts>,
}

impl Spares {
    /// No reading is over yet.
    pub(crate) fn new(alloc: Global) -> Spares
        ensures { result.parts.items ≡ [] }
    {
        Spares {
            alloc,
            parts: Vec::new(alloc),
        }
    }

    /// A reading with these parts is over.
    pub(crate) fn give(&mut self, parts: OpenParts) -> Result<(), OutOfMemory>
        ensures { OnOk result (self.new.parts.items ≡ self.old.parts.items ++ parts ∷ []) }
    {
        Ok(self.parts.push(parts)?)
    }

    /// Parts of which nothing is wanted and no node is open, with the memory of some that are over, if there are any.
    pub(crate) fn take(&mut self) -> OpenParts
        ensures wanted { result.wanted ≡ [] }
        ensures nodes { result.nodes ≡ [] }
    {
        match self.parts.pop() {
            Some(parts) => parts.emptied(),
            None => OpenParts::new(self.alloc),
        }
    }
}
