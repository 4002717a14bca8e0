//! How a lock is laid out and its passes are dealt, and how they come together again.
ghost use Rattle.std.specs.Prelude.{◌≡◌, ℕ, ◌+◌, ◌-◌, ◌<◌, ◌≤◌, List, [], ◌∷◌, ◌++◌, length, IfOk, IfErr, Ok, Err, Some, All, vec_len, vec_capacity};
ghost use Rattle.turn_lock.specs.declared.view.Stage.TheVariants.{Idle};
ghost use Rattle.turn_lock.specs.Boards.{IsBoard};
ghost use Rattle.turn_lock.specs.Views.{fresh, pooled};
ghost use Rattle.turn_lock.specs.Passes.{IsAt, IsIdle, IsNewPass, all_own};
ghost use Rattle.turn_lock.specs.Whole.{IsWhole};

use crate::pass::TurnPass;
use crate::rule::{Board, HOME, Opening, Part, Place, Pool, Top};
use crate::storied::Storied;
use atomic_table::{Refused, Table};
use std::alloc::{AllocFailed, Global};
use std::snapshot::Snapshot;

/// How many turns a pass may take.
pub(crate) const TURNS: u64 = 1 << 40;

// A slot with the value.
fn slot_with<V: Storied>(alloc: Global, value: V) -> Result<Vec<Option<V>>, V>
    ensures ok { IfOk result (λ slots. slots.items ≡ Some value ∷ []) }
    ensures err { IfErr result (λ back. back ≡ value) }
{
    let mut slots = Vec::new(alloc);
    let Err(AllocFailed { value: back }) = slots.push(Some(value)) else {
        return Ok(slots);
    };
    slots.destroy_empty();
    let Some(value) = back else { unreachable!() };
    Err(value)
}

// The value of the one slot.
fn value_in<V: Storied>(mut slots: Vec<Option<V>>) -> V
    requires { (value : V) × (slots.items ≡ Some value ∷ []) }
    ensures { slots.items ≡ Some result ∷ [] }
{
    let Some(Some(value)) = slots.pop() else {
        unreachable!()
    };
    slots.destroy_empty();
    value
}

/// The words and the slot, with the value at home, and the one seat.
pub(crate) fn lay<V: Storied>(
    alloc: Global,
    value: V,
    passes: u32,
) -> Result<(Board<V>, Place<V>), V>
    requires passes { (0 < passes) × (passes ≤ 16) }
    requires sums { V.adds_up value }
    ensures board { IfOk result (λ r. IsBoard r.0.shared.table_id × (r.0.shared.key.passes ≡ passes) × (r.0.shared.key.first.value ≡ value)) }
    ensures seat { IfOk result (λ r. (r.1.table_id ≡ r.0.shared.table_id) × (r.1.me ≡ (fresh passes (V.story value), []))) }
    ensures err { IfErr result (λ back. back ≡ value) }
{
    let opening = Opening {
        passes: u64::from(passes),
        first: Snapshot::of(&value),
    };
    let slots = match slot_with(alloc, value) {
        Ok(slots) => slots,
        Err(value) => return Err(value),
    };
    match Table::new(alloc, &[0, 0, 0], slots, &opening) {
        Ok(made) => Ok(made),
        Err(Refused { slots }) => Err(value_in(slots)),
    }
}

// Cuts one pass off a view that did nothing yet.
fn cut_one<V: Storied>(top: &Top<V>, seat: &mut Place<V>) -> Place<V>
    requires board { (seat.old.table_id ≡ top.now.table_id) × IsBoard top.now.table_id }
    requires fresh { seat.old.me ≡ (fresh seat.old.me.0.passes seat.old.me.0.base, []) }
    requires several { 1 < seat.old.me.0.passes }
    ensures left { (seat.new.table_id ≡ seat.old.table_id) × (seat.new.me ≡ (fresh (seat.old.me.0.passes - 1) seat.old.me.0.base, [])) }
    ensures right { (result.table_id ≡ seat.old.table_id) × (result.me ≡ (fresh 1 seat.old.me.0.base, [])) }
{
    top.split_seat::<Part>(seat)
}

// A pass with all its turns.
fn pass_of<V: Storied>(seat: Place<V>) -> TurnPass<V>
    requires { seat.me ≡ (fresh 1 seat.me.0.base, []) }
    ensures { IsNewPass seat.table_id seat.me.0.base result }
{
    TurnPass { seat, left: TURNS }
}

// Adds a pass where there is room for it.
fn add<V: Storied>(dealt: &mut Vec<TurnPass<V>>, pass: TurnPass<V>)
    requires { vec_len dealt.old < vec_capacity dealt.old }
    ensures items { dealt.new.items ≡ dealt.old.items ++ pass ∷ [] }
    ensures room { vec_capacity dealt.old ≤ vec_capacity dealt.new }
{
    let Ok(()) = dealt.push(pass) else {
        unreachable!()
    };
}

/// Deals the passes.
pub(crate) fn deal<V: Storied>(
    top: &Top<V>,
    mut seat: Place<V>,
    passes: u32,
    dealt: &mut Vec<TurnPass<V>>,
)
    requires board { (seat.table_id ≡ top.now.table_id) × IsBoard top.now.table_id }
    requires fresh { (seat.me ≡ (fresh passes seat.me.0.base, [])) × (0 < passes) }
    requires room { (vec_len dealt.old ≡ 0) × (passes ≤ vec_capacity dealt.old) }
    ensures passes { vec_len dealt.new ≡ passes }
    ensures each { All (IsNewPass top.now.table_id seat.me.0.base) dealt.new.items }
{
    for _ in 1..passes {
        let one = cut_one(top, &mut seat);
        add(dealt, pass_of(one));
    }
    add(dealt, pass_of(seat));
}

// The passes of both seats go to the first.
fn join_one<V: Storied>(top: &Top<V>, seat: &mut Place<V>, other: Place<V>)
    requires board { (seat.old.table_id ≡ top.now.table_id) × (other.table_id ≡ top.now.table_id) × IsBoard top.now.table_id }
    requires idle { (seat.old.me.0.stage ≡ Idle) × (other.me.0.stage ≡ Idle) × (seat.old.me.1 ≡ []) × (other.me.1 ≡ []) }
    requires alive { (0 < seat.old.me.0.passes) × (0 < other.me.0.passes) }
    ensures { (seat.new.table_id ≡ seat.old.table_id) × (seat.new.me ≡ (pooled seat.old.me.0 other.me.0, [])) }
{
    top.join_seat::<Pool>(seat, other);
}

/// One seat for all passes.
pub(crate) fn gather<V: Storied>(top: &Top<V>, mut passes: Vec<TurnPass<V>>) -> Place<V>
    requires board { IsBoard top.now.table_id }
    requires each { All (λ p. IsAt top.now.table_id p × IsIdle p) passes.items }
    requires some { 0 < vec_len passes }
    ensures seat { (result.table_id ≡ top.now.table_id) × (result.me.0.stage ≡ Idle) × (result.me.1 ≡ []) }
    ensures passes { result.me.0.passes ≡ vec_len passes }
    ensures own { result.me.0.own ≡ all_own passes.items }
{
    let Some(TurnPass { mut seat, .. }) = passes.pop() else {
        unreachable!()
    };
    while let Some(TurnPass { seat: other, .. }) = passes.pop() {
        join_one(top, &mut seat, other);
    }
    seat
}

/// Takes the value out for good.
pub(crate) fn end<V: Storied>(board: Board<V>, seat: Place<V>) -> V
    requires board { (seat.table_id ≡ board.shared.table_id) × IsBoard board.shared.table_id }
    requires seat { (seat.me.0.passes ≡ board.shared.key.passes) × (0 < seat.me.0.passes) × (seat.me.0.stage ≡ Idle) }
    ensures sums { V.adds_up result }
    ensures whole { IsWhole (V.story board.shared.key.first.value) seat.me.0.own (V.story result) }
{
    let mut closed = board.close_with(seat);
    let found = closed.take(HOME);
    closed.free();
    let Some(value) = found else { unreachable!() };
    value
}
