//! A turn that is taken.
ghost use Rattle.std.specs.Prelude.{◌≡◌, ℕ, ◌+◌, ◌^◌, ◌<◌, List, [], ◌∷◌, ◌++◌, length};
ghost use types.Logic.{sem};

use crate::lock::TurnLock;
use crate::pass::TurnPass;
use crate::steps::count_note;
use crate::storied::Storied;
use crate::turns::leave;
use std::marker::Brand;

/// The value of a lock, for one turn. It can't be dropped: `give_back` is its end.
pub struct TurnHeld<'a, V: Storied> {
    pub(crate) lock: &'a TurnLock<V>,
    pub(crate) pass: &'a mut TurnPass<V>,
    pub(crate) hand: V,
}

impl<'a, V: Storied> TurnHeld<'a, V> {
    ghost use Rattle.turn_lock.specs.Passes.{IsPassOf, turns_left, seen, own, origin};
    ghost use Rattle.turn_lock.specs.Held.{IsTurn, IsOneLonger, IsNoted, LendsValue};

    /// The value.
    pub fn value(&mut self) -> &mut V
        ensures* lends { sem 𝓛 (LendsValue V.row V.Note.row V.Storied self.entry result) }
        ensures value { result.now ≡ self.old.hand }
    {
        &mut self.hand
    }

    /// Notes the entry that was added to the value's list since the last note of this turn, or since the turn began.
    pub fn note(&mut self)
        requires turn { IsTurn self.old }
        requires entry { IsOneLonger (seen self.old.pass.now) (V.story self.old.hand) }
        requires room { length (seen self.old.pass.now) < 2 ^ 63 }
        ensures lock { self.new.lock.now ≡ self.old.lock.now }
        ensures pass { self.new.pass.ghost_name ≡ self.old.pass.ghost_name }
        ensures turn { IsTurn self.new }
        ensures hand { self.new.hand ≡ self.old.hand }
        ensures left { turns_left self.new.pass.now ≡ turns_left self.old.pass.now }
        ensures origin { origin self.new.pass.now ≡ origin self.old.pass.now }
        ensures seen { seen self.new.pass.now ≡ V.story self.old.hand }
        ensures noted { IsNoted (V.story self.old.hand) self.old.pass.now self.new.pass.now }
    {
        let pass = &mut *self.pass;
        count_note::<V, Brand>(&self.lock.board.shared, &mut pass.seat, &self.hand);
    }

    /// Gives the value back. Whoever came next takes it.
    pub fn give_back(self)
        requires turn { IsTurn self }
        requires noted { V.story self.hand ≡ seen self.pass.now }
        requires sums { V.adds_up self.hand }
        ensures pass { IsPassOf self.entry.lock.now self.exit.1.0.now }
        ensures left { turns_left self.exit.1.0.now ≡ turns_left self.entry.pass.now }
        ensures own { own self.exit.1.0.now ≡ own self.entry.pass.now }
        ensures origin { origin self.exit.1.0.now ≡ origin self.entry.pass.now }
        ensures seen { seen self.exit.1.0.now ≡ seen self.entry.pass.now }
    {
        let TurnHeld { lock, pass, hand } = self;
        leave(&lock.board.shared, &lock.bells, pass, hand);
    }
}
