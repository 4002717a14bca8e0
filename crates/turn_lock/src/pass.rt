//! What a thread takes its turns with.
ghost use Rattle.std.specs.Prelude.{◌≡◌, ℕ, ◌+◌, ◌^◌};
ghost use Rattle.turn_lock.specs.Views.{IsRising};

use crate::storied::Storied;
use crate::view::View;
use atomic_table::Seat;

/// The right to take turns at one lock. It can be sent to another thread. Where one is dropped, its lock can't be closed.
#[derive(Drop)]
pub struct TurnPass<V: Storied> {
    pub(crate) seat: Seat<Option<V>, View<V::Note>>,
    pub(crate) left: u64,
    ghost alone: { seat.me.0.passes ≡ 1 },
    ghost counted: { left + seat.me.0.draws ≡ 2 ^ 40 },
    ghost rising: { IsRising seat.me.0.own },
}

impl<V: Storied> TurnPass<V> {
    ghost use Rattle.turn_lock.specs.Passes.{turns_left};

    /// How many turns the pass may still take, of 2^40.
    pub fn left(&self) -> u64
        ensures { result ≡ turns_left self.now }
    {
        self.left
    }
}
