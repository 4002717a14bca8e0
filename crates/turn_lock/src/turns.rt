//! A turn, from its number to the value and back.
ghost use Rattle.std.specs.Prelude.{◌≡◌, ℕ, ◌+◌, ◌^◌, ◌<◌, List, [], ◌∷◌, ◌++◌, length, Some, None};
ghost use Rattle.turn_lock.specs.declared.view.Stage.TheVariants.{Idle, Waiting, Served};
ghost use Rattle.turn_lock.specs.Boards.{IsBoard};
ghost use Rattle.turn_lock.specs.Steps.{Enters};
ghost use Rattle.turn_lock.specs.Passes.{IsAt, IsIdle, IsHolding, turns_left, seen, own, origin, Gives};

use crate::bells::Bells;
use crate::pass::TurnPass;
use crate::rule::{NOW, Place, Top};
use crate::steps::{draw_number, is_served, put_home, serve_next, take_out};
use crate::storied::Storied;
use std::sync::Wait;

// Waits until the number is served, and takes the slot.
fn wait_for_turn<V: Storied, R: Wait>(
    rt: &R,
    top: &Top<V>,
    bells: &Bells,
    seat: &mut Place<V>,
    number: u64,
)
    requires board { (seat.old.table_id ≡ top.now.table_id) × IsBoard top.now.table_id }
    requires waits { (seat.old.me.0.stage ≡ Waiting number) × (seat.old.me.1 ≡ []) }
    requires alone { 0 < seat.old.me.0.passes }
    ensures board { seat.new.table_id ≡ seat.old.table_id }
    ensures entered { Enters V.story V.adds_up number seat.old.me seat.new.me }
{
    let mut looks: u64 = 0;
    for _ in rt.forever() {
        if is_served(top, seat, number) {
            return;
        }
        bells.rest(rt, number, looks);
        looks = looks.saturating_add(1);
    }
    unreachable!()
}

/// Draws a number, waits until it is served, and takes the value.
pub(crate) fn enter<V: Storied, R: Wait>(
    rt: &R,
    top: &Top<V>,
    bells: &Bells,
    pass: &mut TurnPass<V>,
) -> V
    requires board { IsAt top.now.table_id pass.old × IsBoard top.now.table_id }
    requires idle { IsIdle pass.old }
    requires left { 0 < turns_left pass.old }
    ensures board { IsAt top.now.table_id pass.new × IsHolding pass.new }
    ensures left { turns_left pass.new + 1 ≡ turns_left pass.old }
    ensures own { own pass.new ≡ own pass.old }
    ensures origin { origin pass.new ≡ origin pass.old }
    ensures seen { seen pass.new ≡ V.story result }
    ensures value { Gives V.story V.adds_up pass.old result }
{
    let number = draw_number(top, &mut pass.seat);
    pass.left -= 1;
    wait_for_turn(rt, top, bells, &mut pass.seat, number);
    take_out(top, &mut pass.seat)
}

/// Puts the value back, and has the next number served.
pub(crate) fn leave<V: Storied>(top: &Top<V>, bells: &Bells, pass: &mut TurnPass<V>, value: V)
    requires board { IsAt top.now.table_id pass.old × IsBoard top.now.table_id }
    requires holding { IsHolding pass.old }
    requires told { V.story value ≡ seen pass.old }
    requires sums { V.adds_up value }
    ensures board { IsAt top.now.table_id pass.new × IsIdle pass.new }
    ensures left { turns_left pass.new ≡ turns_left pass.old }
    ensures own { own pass.new ≡ own pass.old }
    ensures origin { origin pass.new ≡ origin pass.old }
    ensures seen { seen pass.new ≡ seen pass.old }
{
    put_home(top, &mut pass.seat, value);
    serve_next(top, &mut pass.seat);
    bells.ring(top.peek(NOW));
}
