// Where bytes come from.

ghost use Rattle.std.specs.Prelude.{◌≡◌, List, Option, ℕ};
ghost use Rattle.std.specs.Io.{ReadsAtMost};
ghost use Rattle.std.specs.Io.KnownBytes.{ReadConsumes};
ghost use Rattle.vdm_outside.specs.Counts.{raised, HasCause};

use crate::failed::Failed;

/// Gives bytes in order. A count that its clauses name stands still at 2^64 - 1.
pub trait Source {
    /// The bytes that it has left, where it tells them.
    ghost left: { Self → Option (List ℕ) };

    /// How many reads have failed.
    ghost faults: { Self → ℕ };

    /// How many reads there have been.
    ghost reads: { Self → ℕ };

    /// Puts the next bytes into the front of `buf` and gives their number; none into a `buf` with
    /// room is the end. Behind them `buf` may hold anything.
    ///
    /// # Errors
    ///
    /// `Failed` exactly where the count of faults rose. No byte is taken then.
    fn read(&mut self, buf: &mut [u8]) -> Result<usize, Failed>
        ensures room { ReadsAtMost result buf.new }
        ensures bytes { ReadConsumes (left self.old) (left self.new) result buf.new }
        ensures cause { HasCause (faults self.old) (faults self.new) result }
        ensures counted { reads self.new ≡ raised (reads self.old) };
}
