// A sink in memory, which fails where it is told to and where it is full.

ghost use Rattle.std.specs.Prelude.{◌≡◌, ◌≤◌, ◌<◌, ◌↔◌, ◌⊎◌, ◌++◌, length, take, min, IfOk, OnErr, IsErr, IsTrue, Some};
ghost use Rattle.std.specs.Io.{WritesAtMost};
ghost use Rattle.std.specs.Io.KnownBytes.{WriteAppends};
ghost use Rattle.vdm_outside.specs.Counts.{HasCause};

use crate::copy_front::copy_front;
use crate::failed::Failed;
use crate::sink::Sink;
use std::marker::Model;

/// A vector that is written over from the front.
#[derive(Drop)]
pub struct MemSink {
    room: Vec<u8>,
    filled: usize,
    piece: usize,
    fails: Vec<u64>,
    calls: u64,
    faults: u64,
}

impl Model for MemSink {
    ghost use Rattle.std.specs.Prelude.{◌≤◌, ◌-◌, take, length};
    ghost use Rattle.vdm_outside.specs.Store.{Store};

    ghost Value = { Store };

    ghost view = { λ s. record {
      held = take s.filled s.room.items;
      free = length s.room.items - s.filled;
      piece = s.piece;
      failing = s.fails.items;
      calls = s.calls;
      faults = s.faults;
    } };

    ghost invariant = { λ s. (1 ≤ s.piece) × (s.filled ≤ length s.room.items) };
}

impl MemSink {
    ghost use Rattle.vdm_outside.specs.Store.{fresh_store, RefusesNext};

    /// Writes over the bytes of `room`, at most `piece` a call. The calls whose numbers `fails` has
    /// fail, counted from 1.
    pub fn new(room: Vec<u8>, piece: usize, fails: Vec<u64>) -> MemSink
        requires { 1 ≤ piece }
        ensures { result ≡ fresh_store (length room.items) piece fails.items }
    {
        MemSink {
            room,
            filled: 0,
            piece,
            fails,
            calls: 0,
            faults: 0,
        }
    }

    /// The bytes that were written.
    pub fn held(&self) -> &[u8]
        ensures { result.now ≡ self.now.held }
    {
        &self.room[..self.filled]
    }

    // Whether the next call fails, if it has this piece.
    fn refuses_next(&self, piece: &[u8]) -> bool
        ensures { IsTrue result ↔ RefusesNext self.now piece.now }
    {
        let number = self.calls.saturating_add(1);
        let is_full = self.filled == self.room.len();
        self.fails.contains(&number) || (is_full && !piece.is_empty())
    }
}

impl Sink for MemSink {
    ghost use Rattle.vdm_outside.specs.Store.{RefusesNext, after_failure, after_write};

    ghost held = { λ s. Some s.held };

    ghost faults = { λ s. s.faults };

    fn write(&mut self, piece: &[u8]) -> Result<usize, Failed>
        ensures most { WritesAtMost result piece.now }
        ensures some { IfOk result (λ n. 0 < length piece.now → 0 < n) }
        ensures bytes { WriteAppends (Some self.old.held) (Some self.new.held) result piece.now }
        ensures cause { HasCause self.old.faults self.new.faults result }

        ensures fails { IsErr result ↔ RefusesNext self.old piece.now }
        ensures count { IfOk result (λ n. n ≡ min self.old.piece (min (length piece.now) self.old.free)) }
        ensures after { IfOk result (λ n. self.new ≡ after_write self.old (take n piece.now)) }
        ensures failed { OnErr result (self.new ≡ after_failure self.old) }
    {
        let is_refused = self.refuses_next(piece);
        self.calls = self.calls.saturating_add(1);
        if is_refused {
            self.faults = self.faults.saturating_add(1);
            return Err(Failed);
        }
        let count = copy_front(piece, &mut self.room[self.filled..], self.piece);
        self.filled += count;
        Ok(count)
    }
}
