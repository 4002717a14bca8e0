// A source that never fails.

ghost use Rattle.std.specs.Prelude.{◌≡◌, ◌++◌, length, take, drop, min, IfOk, Some};
ghost use Rattle.std.specs.Io.{ReadsAtMost};
ghost use Rattle.std.specs.Io.KnownBytes.{ReadConsumes};
ghost use Rattle.vdm_outside.specs.Counts.{raised, HasCause};

use crate::copy_front::copy_front;
use crate::failed::Failed;
use crate::source::Source;
use std::marker::Model;

/// The bytes of a vector, as many at a time as there is room for.
#[derive(Drop)]
pub struct SureSource {
    bytes: Vec<u8>,
    next: usize,
    reads: u64,
}

impl Model for SureSource {
    ghost use Rattle.std.specs.Prelude.{◌≤◌, drop, length};
    ghost use Rattle.vdm_outside.specs.SureFeed.{SureFeed};

    ghost Value = { SureFeed };

    ghost view = { λ s. record { left = drop s.next s.bytes.items; reads = s.reads } };

    ghost invariant = { λ s. s.next ≤ length s.bytes.items };
}

impl SureSource {
    /// Gives `bytes`.
    pub fn new(bytes: Vec<u8>) -> SureSource
        ensures { result ≡ record { left = bytes.items; reads = 0 } }
    {
        SureSource {
            bytes,
            next: 0,
            reads: 0,
        }
    }
}

impl Source for SureSource {
    ghost use Rattle.vdm_outside.specs.SureFeed.{after_sure_read};

    ghost left = { λ s. Some s.left };

    ghost faults = { λ _. 0 };

    ghost reads = { λ s. s.reads };

    fn read(&mut self, buf: &mut [u8]) -> Result<usize, Failed>
        ensures room { ReadsAtMost result buf.new }
        ensures bytes { ReadConsumes (Some self.old.left) (Some self.new.left) result buf.new }
        ensures cause { HasCause 0 0 result }
        ensures counted { self.new.reads ≡ raised self.old.reads }

        ensures sure { result ≡ Ok (min (length self.old.left) (length buf.old)) }
        ensures after { IfOk result (λ n. self.new ≡ after_sure_read self.old n) }
        ensures copied { IfOk result (λ n. buf.new ≡ take n self.old.left ++ drop n buf.old) }
    {
        self.reads = self.reads.saturating_add(1);
        let most = buf.len();
        let count = copy_front(&self.bytes[self.next..], buf, most);
        self.next += count;
        Ok(count)
    }
}
