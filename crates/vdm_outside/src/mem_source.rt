// A source in memory, which fails where it is told to.

ghost use Rattle.std.specs.Prelude.{◌≡◌, ◌≤◌, ◌↔◌, ◌++◌, length, take, drop, min, IfOk, OnErr, IsErr, Some};
ghost use Rattle.std.specs.Io.{ReadsAtMost};
ghost use Rattle.std.specs.Io.KnownBytes.{ReadConsumes};
ghost use Rattle.vdm_outside.specs.Counts.{raised, HasCause};
ghost use Rattle.vdm_outside.specs.Failing.{IsNextToFail};

use crate::copy_front::copy_front;
use crate::failed::Failed;
use crate::source::Source;
use std::marker::Model;

/// The bytes of a vector, some at a time.
#[derive(Drop)]
pub struct MemSource {
    bytes: Vec<u8>,
    next: usize,
    piece: usize,
    fails: Vec<u64>,
    calls: u64,
    faults: u64,
}

impl Model for MemSource {
    ghost use Rattle.std.specs.Prelude.{◌≤◌, drop, length};
    ghost use Rattle.vdm_outside.specs.Feed.{Feed};

    ghost Value = { Feed };

    ghost view = { λ s. record {
      left = drop s.next s.bytes.items;
      piece = s.piece;
      failing = s.fails.items;
      calls = s.calls;
      faults = s.faults;
    } };

    ghost invariant = { λ s. (1 ≤ s.piece) × (s.next ≤ length s.bytes.items) };
}

impl MemSource {
    ghost use Rattle.vdm_outside.specs.Feed.{fresh_feed};

    /// Gives `bytes`, at most `piece` a call. The calls whose numbers `fails` has fail, counted from 1.
    pub fn new(bytes: Vec<u8>, piece: usize, fails: Vec<u64>) -> MemSource
        requires { 1 ≤ piece }
        ensures { result ≡ fresh_feed bytes.items piece fails.items }
    {
        MemSource {
            bytes,
            next: 0,
            piece,
            fails,
            calls: 0,
            faults: 0,
        }
    }
}

impl Source for MemSource {
    ghost use Rattle.vdm_outside.specs.Feed.{after_failure, after_read};

    ghost left = { λ s. Some s.left };

    ghost faults = { λ s. s.faults };

    ghost reads = { λ s. s.calls };

    fn read(&mut self, buf: &mut [u8]) -> Result<usize, Failed>
        ensures room { ReadsAtMost result buf.new }
        ensures bytes { ReadConsumes (Some self.old.left) (Some self.new.left) result buf.new }
        ensures cause { HasCause self.old.faults self.new.faults result }
        ensures counted { self.new.calls ≡ raised self.old.calls }

        ensures fails { IsErr result ↔ IsNextToFail self.old.failing self.old.calls }
        ensures count { IfOk result (λ n. n ≡ min self.old.piece (min (length self.old.left) (length buf.old))) }
        ensures after { IfOk result (λ n. self.new ≡ after_read self.old n) }
        ensures copied { IfOk result (λ n. buf.new ≡ take n self.old.left ++ drop n buf.old) }
        ensures failed { OnErr result (self.new ≡ after_failure self.old) }
        ensures untouched { OnErr result (buf.new ≡ buf.old) }
    {
        self.calls = self.calls.saturating_add(1);
        if self.fails.contains(&self.calls) {
            self.faults = self.faults.saturating_add(1);
            return Err(Failed);
        }
        let count = copy_front(&self.bytes[self.next..], buf, self.piece);
        self.next += count;
        Ok(count)
    }
}
