//! What a thread draws its numbers with.
ghost use Rattle.std.specs.Prelude.{◌≡◌, ◌+◌, length};
ghost use Rattle.stamp_source.specs.Numbers.{IsRising};

use crate::rule::Drawn;
use atomic_table::Seat;

/// The right to draw numbers from one source. Where one is dropped, its source can't be closed.
#[derive(Drop)]
pub struct StampPass {
    pub(crate) seat: Seat<(), Drawn>,
    pub(crate) left: u64,
    ghost alone: { seat.me.0.passes ≡ 1 },
    ghost counted: { left + length seat.me.0.numbers ≡ seat.me.0.about.each },
    ghost rising: { IsRising seat.me.0.numbers },
}

impl StampPass {
    ghost use Rattle.stamp_source.specs.Passes.{draws_left};

    /// How many numbers the pass may still draw.
    pub fn left(&self) -> u64
        ensures { result ≡ draws_left self.now }
    {
        self.left
    }
}
