// Where bytes go.

ghost use Rattle.std.specs.Prelude.{◌<◌, List, Option, ℕ, length, IfOk};
ghost use Rattle.std.specs.Io.{WritesAtMost};
ghost use Rattle.std.specs.Io.KnownBytes.{WriteAppends};
ghost use Rattle.vdm_outside.specs.Counts.{HasCause};

use crate::failed::Failed;

/// Takes bytes in order. Its count of faults stands still at 2^64 - 1.
pub trait Sink {
    /// The bytes that it holds, where it tells them.
    ghost held: { Self → Option (List ℕ) };

    /// How many writes have failed.
    ghost faults: { Self → ℕ };

    /// Takes the first bytes of `piece` and gives their number, at least one of a piece that has any.
    ///
    /// # Errors
    ///
    /// `Failed` exactly where the count of faults rose. No byte is taken then.
    fn write(&mut self, piece: &[u8]) -> Result<usize, Failed>
        ensures most { WritesAtMost result piece.now }
        ensures some { IfOk result (λ n. 0 < length piece.now → 0 < n) }
        ensures bytes { WriteAppends (held self.old) (held self.new) result piece.now }
        ensures cause { HasCause (faults self.old) (faults self.new) result };
}
