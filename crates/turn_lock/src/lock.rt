//! The lock, and how a turn at it begins.
ghost use Rattle.std.specs.Prelude.{◌≡◌, ℕ, ◌+◌, ◌<◌, ◌≤◌, All, IfOk, IfErr, vec_len};
ghost use Rattle.turn_lock.specs.Boards.{IsBoard};

use crate::bells::Bells;
use crate::dealing::{deal, end, gather, lay};
use crate::held::TurnHeld;
use crate::pass::TurnPass;
use crate::rule::Board;
use crate::storied::Storied;
use crate::turns::enter;
use std::alloc::Global;
use std::sync::Wait;

/// A value that threads take in turns, in the order in which they came.
pub struct TurnLock<V: Storied> {
    pub(crate) board: Board<V>,
    pub(crate) bells: Bells,
    ghost sized: { IsBoard board.shared.table_id },
    ghost some: { 0 < board.shared.key.passes },
}

impl<V: Storied> TurnLock<V> {
    ghost use Rattle.turn_lock.specs.Passes.{IsPassOf, IsNewPass, AreAll, lock_id, lock_passes, first_story, turns_left, seen, own, origin, Gives};
    ghost use Rattle.turn_lock.specs.Held.{IsTurn};
    ghost use Rattle.turn_lock.specs.Whole.{HasAllNotes};

    /// A lock over the value, and its passes. Where there is no memory for them, the value comes back.
    pub fn new(alloc: Global, value: V, passes: u32) -> Result<(TurnLock<V>, Vec<TurnPass<V>>), V>
        requires passes { (0 < passes) × (passes ≤ 16) }
        requires sums { V.adds_up value }
        ensures lock { IfOk result (λ r. (lock_passes r.0 ≡ passes) × (first_story V.story r.0 ≡ V.story value)) }
        ensures count { IfOk result (λ r. vec_len r.1 ≡ passes) }
        ensures each { IfOk result (λ r. All (IsNewPass (lock_id r.0) (V.story value)) r.1.items) }
        ensures err { IfErr result (λ back. back ≡ value) }
    {
        let Ok(mut dealt) = Vec::with_capacity(alloc, passes as usize) else {
            return Err(value);
        };
        match lay(alloc, value, passes) {
            Ok((board, seat)) => {
                deal(&board.shared, seat, passes, &mut dealt);
                let bells = Bells::new();
                Ok((TurnLock { board, bells }, dealt))
            }
            Err(value) => Err(value),
        }
    }

    /// Waits until all who came before have given their turns back, and takes the value. Nothing says that this ends.
    pub fn turn<'a, R: Wait>(&'a self, rt: &R, pass: &'a mut TurnPass<V>) -> TurnHeld<'a, V>
        requires pass { IsPassOf self.now pass.old }
        requires left { 0 < turns_left pass.old }
        ensures lock { result.lock.now ≡ self.now }
        ensures pass { result.pass.ghost_name ≡ pass.entry.ghost_name }
        ensures turn { IsTurn result }
        ensures left { turns_left result.pass.now + 1 ≡ turns_left pass.old }
        ensures own { own result.pass.now ≡ own pass.old }
        ensures origin { origin result.pass.now ≡ origin pass.old }
        ensures seen { seen result.pass.now ≡ V.story result.hand }
        ensures value { Gives V.story V.adds_up pass.old result.hand }
    {
        let hand = enter(rt, &self.board.shared, &self.bells, pass);
        TurnHeld {
            lock: self,
            pass,
            hand,
        }
    }
    /// The value, once all passes are back. Its list is the one at `new`, and then the notes of all passes, each once.
    pub fn close(self, passes: Vec<TurnPass<V>>) -> V
        requires passes { AreAll self passes.items }
        ensures sums { V.adds_up result }
        ensures whole { HasAllNotes (first_story V.story self) passes.items (V.story result) }
    {
        let TurnLock { board, bells: _ } = self;
        let seat = gather(&board.shared, passes);
        end(board, seat)
    }
}

/// A lock that is dropped drops its value, where that can be dropped.
impl<V: Storied + Drop> Drop for TurnLock<V> {
    fn drop(self) {
        let Self { board, bells: _ } = self;
        drop(board);
    }
}
