//! How the passes of a source are dealt, and how they come together again.
ghost use Rattle.std.specs.Prelude.{◌≡◌, ◌+◌, ◌-◌, ◌<◌, ◌≤◌, [], ◌∷◌, ◌++◌, All, vec_len, vec_capacity};
ghost use Rattle.stamp_source.specs.Rule.{drawn, pooled};
ghost use Rattle.stamp_source.specs.Passes.{IsAt, IsNewPass, all_numbers};

use crate::pass::StampPass;
use crate::rule::{Opening, Part, Place, Pool, Top};

// Cuts one pass off a view that drew nothing.
fn cut_one(top: &Top, seat: &mut Place) -> Place
    requires board { (seat.old.table_id ≡ top.now.table_id) × (top.now.table_id.words ≡ 1) }
    requires fresh { seat.old.me ≡ (drawn seat.old.me.0.about seat.old.me.0.passes [], []) }
    requires several { 1 < seat.old.me.0.passes }
    ensures left { (seat.new.table_id ≡ seat.old.table_id) × (seat.new.me ≡ (drawn seat.old.me.0.about (seat.old.me.0.passes - 1) [], [])) }
    ensures right { (result.table_id ≡ seat.old.table_id) × (result.me ≡ (drawn seat.old.me.0.about 1 [], [])) }
{
    top.split_seat::<Part>(seat)
}

// A pass that may draw `each` numbers.
fn pass_of(seat: Place, each: u64) -> StampPass
    requires fresh { seat.me ≡ (drawn seat.me.0.about 1 [], []) }
    requires each { seat.me.0.about.each ≡ each }
    ensures { IsNewPass seat.table_id seat.me.0.about result }
{
    StampPass { seat, left: each }
}

// Adds a pass where there is room for it.
fn add(dealt: &mut Vec<StampPass>, pass: StampPass)
    requires { vec_len dealt.old < vec_capacity dealt.old }
    ensures items { dealt.new.items ≡ dealt.old.items ++ pass ∷ [] }
    ensures room { vec_capacity dealt.old ≤ vec_capacity dealt.new }
{
    let Ok(()) = dealt.push(pass) else {
        unreachable!()
    };
}

/// Deals the passes.
pub(crate) fn deal(top: &Top, mut seat: Place, about: Opening, dealt: &mut Vec<StampPass>)
    requires board { (seat.table_id ≡ top.now.table_id) × (top.now.table_id.words ≡ 1) }
    requires fresh { (seat.me ≡ (drawn about about.passes [], [])) × (0 < about.passes) }
    requires room { (vec_len dealt.old ≡ 0) × (about.passes ≤ vec_capacity dealt.old) }
    ensures passes { vec_len dealt.new ≡ about.passes }
    ensures each { All (IsNewPass top.now.table_id about) dealt.new.items }
{
    for _ in 1..about.passes {
        let one = cut_one(top, &mut seat);
        add(dealt, pass_of(one, about.each));
    }
    add(dealt, pass_of(seat, about.each));
}

// The passes of both seats go to the first.
fn join_one(top: &Top, seat: &mut Place, other: Place)
    requires board { (seat.old.table_id ≡ top.now.table_id) × (other.table_id ≡ top.now.table_id) × (top.now.table_id.words ≡ 1) }
    requires bare { (seat.old.me.1 ≡ []) × (other.me.1 ≡ []) }
    requires alive { (0 < seat.old.me.0.passes) × (0 < other.me.0.passes) }
    ensures { (seat.new.table_id ≡ seat.old.table_id) × (seat.new.me ≡ (pooled seat.old.me.0 other.me.0, [])) }
{
    top.join_seat::<Pool>(seat, other);
}

/// One seat for all passes.
pub(crate) fn gather(top: &Top, mut passes: Vec<StampPass>) -> Place
    requires board { top.now.table_id.words ≡ 1 }
    requires each { All (IsAt top.now.table_id) passes.items }
    requires some { 0 < vec_len passes }
    ensures seat { (result.table_id ≡ top.now.table_id) × (result.me.1 ≡ []) }
    ensures passes { result.me.0.passes ≡ vec_len passes }
    ensures numbers { result.me.0.numbers ≡ all_numbers passes.items }
{
    let Some(StampPass { mut seat, .. }) = passes.pop() else {
        unreachable!()
    };
    while let Some(StampPass { seat: other, .. }) = passes.pop() {
        join_one(top, &mut seat, other);
    }
    seat
}
