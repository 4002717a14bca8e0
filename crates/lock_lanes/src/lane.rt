//! A lane: a thread's number, and its pass of each lock.
ghost use Rattle.std.specs.Prelude.{◌≡◌, ◌<◌, length, [], ◌∷◌, ◌++◌, IfSome, All, vec_len};
ghost use Rattle.turn_lock.specs.Passes.{IsPassOf, turns_left, seen, own};
ghost use Rattle.turn_lock.specs.Held.{IsTurn};
ghost use Rattle.lock_lanes.specs.Lanes.{ArePassesOf};

use crate::log::Log;
use std::alloc::Global;
use std::sync::Wait;
use turn_lock::{TurnHeld, TurnLock, TurnPass};

/// The most entries of a log.
pub const ROOM: usize = 1 << 24;

#[derive(Drop)]
pub struct Lane {
    pub number: u64,
    pub passes: Vec<TurnPass<Log>>,
}

// Adds the entry to the value and notes it, and says whether there was room.
fn write(held: &mut TurnHeld<'_, Log>, entry: u64) -> bool
    requires turn { IsTurn held.old }
    requires seen { seen held.old.pass.now ≡ held.old.hand.entries.items }
    ensures lock { held.new.lock.now ≡ held.old.lock.now }
    ensures pass { held.new.pass.ghost_name ≡ held.old.pass.ghost_name }
    ensures turn { IsTurn held.new }
    ensures seen { seen held.new.pass.now ≡ held.new.hand.entries.items }
{
    if held.value().entries().len() >= ROOM {
        return false;
    }
    if !held.value().add(entry) {
        return false;
    }
    held.note();
    true
}

// One turn.
fn note<R: Wait>(rt: &R, lock: &TurnLock<Log>, pass: &mut TurnPass<Log>, entry: u64) -> bool
    requires pass { IsPassOf lock.now pass.old }
    requires left { 0 < turns_left pass.old }
    ensures pass { IsPassOf lock.now pass.new }
{
    let mut held = lock.turn(rt, pass);
    let noted = write(&mut held, entry);
    held.give_back();
    noted
}

// One turn at one of the locks, where the pass has one left.
fn note_at<R: Wait>(
    rt: &R,
    locks: &[TurnLock<Log>],
    passes: &mut Vec<TurnPass<Log>>,
    at: usize,
    entry: u64,
) -> bool
    requires passes { ArePassesOf locks.now passes.old.items }
    requires at { at < length locks.now }
    ensures passes { ArePassesOf locks.now passes.new.items }
{
    let lock = &locks[at];
    let pass = &mut passes[at];
    pass.left() > 0 && note(rt, lock, pass, entry)
}

/// The entry with this number of a lane.
pub fn entry_of(lane: u64, number: u64) -> u64 {
    lane.wrapping_shl(32) | number
}

impl Lane {
    // Takes a pass of one lock more.
    fn give(
        &mut self,
        _locks: &[TurnLock<Log>],
        _lock: &TurnLock<Log>,
        pass: TurnPass<Log>,
    ) -> Option<()>
        requires passes { ArePassesOf _locks.now self.old.passes.items }
        requires pass { IsPassOf _lock.now pass }
        ensures { IfSome result (λ _. ArePassesOf (_locks.now ++ _lock.now ∷ []) self.new.passes.items) }
    {
        let Ok(()) = self.passes.push(pass) else {
            return None;
        };
        Some(())
    }

    // Gives back the pass of the last lock.
    fn take(&mut self, _locks: &[TurnLock<Log>], _lock: &TurnLock<Log>) -> Option<TurnPass<Log>>
        requires { ArePassesOf (_locks.now ++ _lock.now ∷ []) self.old.passes.items }
        ensures { IfSome result (λ pass. IsPassOf _lock.now pass × ArePassesOf _locks.now self.new.passes.items) }
    {
        let pass = self.passes.pop()?;
        Some(pass)
    }

    /// Notes so many entries, at one lock after the other.
    pub fn run<R: Wait>(&mut self, rt: &R, locks: &[TurnLock<Log>], notes: u64)
        requires passes { ArePassesOf locks.now self.old.passes.items }
        requires some { 0 < length locks.now }
        ensures passes { ArePassesOf locks.now self.new.passes.items }
    {
        let mut at = 0;
        for number in 0..notes {
            let entry = entry_of(self.number, number);
            note_at(rt, locks, &mut self.passes, at, entry);
            at = if at + 1 < locks.len() { at + 1 } else { 0 };
        }
    }
}

/// Gives each lane a pass of one lock more.
pub fn give_all(
    lanes: &mut Vec<Lane>,
    locks: &[TurnLock<Log>],
    lock: &TurnLock<Log>,
    mut passes: Vec<TurnPass<Log>>,
) -> Option<()>
    requires lanes { All (λ lane. ArePassesOf locks.now lane.passes.items) lanes.old.items }
    requires passes { All (IsPassOf lock.now) passes.items }
    ensures len { vec_len lanes.new ≡ vec_len lanes.old }
    ensures lanes { IfSome result (λ _. All (λ lane. ArePassesOf (locks.now ++ lock.now ∷ []) lane.passes.items) lanes.new.items) }
{
    for index in 0..lanes.len() {
        let pass = passes.pop()?;
        lanes[index].give(locks, lock, pass)?;
    }
    Some(())
}

/// Takes the pass of the last lock from each lane.
pub fn take_all(
    alloc: Global,
    lanes: &mut Vec<Lane>,
    locks: &[TurnLock<Log>],
    lock: &TurnLock<Log>,
) -> Option<Vec<TurnPass<Log>>>
    requires lanes { All (λ lane. ArePassesOf (locks.now ++ lock.now ∷ []) lane.passes.items) lanes.old.items }
    ensures len { vec_len lanes.new ≡ vec_len lanes.old }
    ensures lanes { IfSome result (λ passes. All (λ lane. ArePassesOf locks.now lane.passes.items) lanes.new.items) }
    ensures passes { IfSome result (λ passes. All (IsPassOf lock.now) passes.items × (vec_len passes ≡ vec_len lanes.old)) }
{
    let mut taken = Vec::with_capacity(alloc, lanes.len()).ok()?;
    for index in 0..lanes.len() {
        let pass = lanes[index].take(locks, lock)?;
        let Ok(()) = taken.push(pass) else {
            return None;
        };
    }
    Some(taken)
}
