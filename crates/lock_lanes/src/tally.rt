//! A count that threads raise in turns. In the end it is all that each of them counted.
ghost use Rattle.std.specs.Prelude.{◌≡◌, ℕ, ◌+◌, ◌<◌, ◌≤◌, ◌^◌, List, [], ◌∷◌, ◌++◌, length, replicate, if◌then◌else◌, IfSome};
ghost use Rattle.turn_lock.specs.Passes.{IsPassOf, turns_left, own, seen};
ghost use Rattle.turn_lock.specs.Held.{IsTurn};

use std::alloc::Global;
use std::sync::Wait;
use std::thread::{Threads, join};
use turn_lock::{Storied, TurnHeld, TurnLock, TurnPass};

// The most that a count comes to.
const MOST: u64 = 1 << 62;

#[derive(Drop)]
pub struct Tally {
    count: u64,
}

impl Storied for Tally {
    ghost use Rattle.std.specs.Prelude.{replicate, ◌≤◌, ◌^◌};

    type Note = ();

    ghost story = { λ tally. replicate tally.count tt };

    ghost adds_up = { λ tally. tally.count ≤ 2 ^ 62 };
}

// Raises the count and notes it, and says whether there was room.
fn raise(held: &mut TurnHeld<'_, Tally>) -> bool
    requires turn { IsTurn held.old }
    requires seen { seen held.old.pass.now ≡ replicate held.old.hand.count tt }
    requires most { held.old.hand.count ≤ 2 ^ 62 }
    ensures lock { held.new.lock.now ≡ held.old.lock.now }
    ensures pass { held.new.pass.ghost_name ≡ held.old.pass.ghost_name }
    ensures turn { IsTurn held.new }
    ensures left { turns_left held.new.pass.now ≡ turns_left held.old.pass.now }
    ensures seen { seen held.new.pass.now ≡ replicate held.new.hand.count tt }
    ensures most { held.new.hand.count ≤ 2 ^ 62 }
    ensures own { length (own held.new.pass.now) ≡ length (own held.old.pass.now) + (if result then 1 else 0) }
{
    if held.value().count >= MOST {
        return false;
    }
    held.value().count += 1;
    held.note();
    true
}

// One turn.
fn add<R: Wait>(rt: &R, lock: &TurnLock<Tally>, pass: &mut TurnPass<Tally>) -> bool
    requires pass { IsPassOf lock.now pass.old }
    requires left { 0 < turns_left pass.old }
    ensures pass { IsPassOf lock.now pass.new }
    ensures own { length (own pass.new) ≡ length (own pass.old) + (if result then 1 else 0) }
{
    let mut held = lock.turn(rt, pass);
    let raised = raise(&mut held);
    held.give_back();
    raised
}

// Takes so many turns, and says how often the count was raised.
fn add_all<R: Wait>(
    rt: &R,
    lock: &TurnLock<Tally>,
    mut pass: TurnPass<Tally>,
    turns: u32,
) -> (TurnPass<Tally>, u64)
    requires pass { IsPassOf lock.now pass }
    requires none { own pass ≡ [] }
    ensures pass { IsPassOf lock.now result.0 }
    ensures own { length (own result.0) ≡ result.1 }
{
    let mut raised = 0;
    for _ in 0..turns {
        if pass.left() > 0 && add(rt, lock, &mut pass) {
            raised += 1;
        }
    }
    (pass, raised)
}

// The last two passes, with the rest.
fn two_of(
    mut passes: Vec<TurnPass<Tally>>,
) -> Option<(Vec<TurnPass<Tally>>, TurnPass<Tally>, TurnPass<Tally>)>
    ensures { IfSome result (λ r. passes.items ≡ r.0.items ++ r.1 ∷ r.2 ∷ []) }
{
    let second = passes.pop()?;
    let first = passes.pop()?;
    Some((passes, first, second))
}

// All passes again.
fn with_two(
    mut passes: Vec<TurnPass<Tally>>,
    first: TurnPass<Tally>,
    second: TurnPass<Tally>,
) -> Option<Vec<TurnPass<Tally>>>
    ensures { IfSome result (λ all. all.items ≡ passes.items ++ first ∷ second ∷ []) }
{
    passes.push(first).ok()?;
    passes.push(second).ok()?;
    Some(passes)
}

/// What two threads count in so many turns each: the count in the end, and how often each raised it.
pub fn count_by_two<R: Threads + Wait + Sync>(
    rt: &R,
    alloc: Global,
    turns: u32,
) -> Option<(u64, u64, u64)>
    ensures { IfSome result (λ r. r.0 ≡ r.1 + r.2) }
{
    let Ok((lock, passes)) = TurnLock::new(alloc, Tally { count: 0 }, 2) else {
        return None;
    };
    let (passes, first, second) = two_of(passes)?;
    let ((first, a), (second, b)) = join(
        rt,
        || -> (TurnPass<Tally>, u64)
            requires { IsPassOf lock first × (own first ≡ []) }
            ensures { IsPassOf lock result.0 × (length (own result.0) ≡ result.1) }
        { add_all(rt, &lock, first, turns) },
        || -> (TurnPass<Tally>, u64)
            requires { IsPassOf lock second × (own second ≡ []) }
            ensures { IsPassOf lock result.0 × (length (own result.0) ≡ result.1) }
        { add_all(rt, &lock, second, turns) },
    );
    let passes = with_two(passes, first, second)?;
    let Tally { count } = lock.close(passes);
    Some((count, a, b))
}
