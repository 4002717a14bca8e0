// `compare operators SEED COUNT`: whether each of so many operators, in turn, gives of drawn operands what the plain one
// gives; COUNT and `agree`, or else the operator, its operands and the two outcomes where they first differ. `drawn.rt` has
// the rule by which operands are drawn from SEED.

use crate::drawn::Drawer;
use crate::kinds::{BINARY, Kind, UNARY};
use crate::outcomes::are_same;
use plain_operators::Room;
use row_words::Line;
use std::fmt::Debug;
use vdm_kinds::{Halt, Operator, RunFault};
use vdm_values::{Node, Value};

/// Answers a request; tells whether the word is one of this library's.
pub fn answer(line: &mut Line<'_>, word: &str) -> bool {
    if word != "compare" {
        return false;
    }
    match line.word() {
        "operators" => compare(line),
        _ => line.refuse(),
    }
    true
}

fn compare(line: &mut Line<'_>) {
    let seed = line.whole();
    let count = line.whole();
    let mut drawer = Drawer::new(line, seed);
    for turn in 0..count {
        if !agrees(line, &mut drawer, turn as usize) {
            return;
        }
    }
    line.say_number(count);
    line.say(" agree");
}

// How many turns go over all operators, the subsequence being the last.
const TURNS: usize = 52;

fn agrees(line: &mut Line<'_>, drawer: &mut Drawer, turn: usize) -> bool {
    let index = turn % TURNS;
    match UNARY.get(index) {
        Some((operator, kind)) => one_agrees(line, drawer, *operator, *kind),
        None => more_agree(line, drawer, index.saturating_sub(UNARY.len())),
    }
}

fn more_agree(line: &mut Line<'_>, drawer: &mut Drawer, index: usize) -> bool {
    match BINARY.get(index) {
        Some((operator, left, right)) => two_agree(line, drawer, *operator, *left, *right),
        None => three_agree(line, drawer),
    }
}

fn one_agrees(line: &mut Line<'_>, drawer: &mut Drawer, operator: Operator, kind: Kind) -> bool {
    let a = drawer.operand(line, kind);
    let quick = strict_operators::unary(line.alloc(), operator, &a);
    let mut room = Room::new(line.alloc());
    let plain = plain_operators::unary(&mut room, operator, &a);
    let is_level = is_level(line, &room, &quick, &plain);
    if !is_level {
        say(line, &operator);
        say(line, &a);
        say_both(line, &quick, &plain);
    }
    is_level
}

fn two_agree(
    line: &mut Line<'_>,
    drawer: &mut Drawer,
    operator: Operator,
    left: Kind,
    right: Kind,
) -> bool {
    let a = drawer.operand(line, left);
    let b = drawer.operand(line, right);
    let quick = strict_operators::binary(line.alloc(), operator, &a, &b);
    let mut room = Room::new(line.alloc());
    let plain = plain_operators::binary(&mut room, operator, &a, &b);
    let is_level = is_level(line, &room, &quick, &plain);
    if !is_level {
        say(line, &operator);
        say(line, &a);
        say(line, &b);
        say_both(line, &quick, &plain);
    }
    is_level
}

fn three_agree(line: &mut Line<'_>, drawer: &mut Drawer) -> bool {
    let a = drawer.operand(line, Kind::Sequence);
    let from = drawer.operand(line, Kind::Number);
    let to = drawer.operand(line, Kind::Number);
    let quick = seq_ops::part(line.alloc(), &a, &from, &to);
    let mut room = Room::new(line.alloc());
    let plain = plain_operators::part(&mut room, &a, &from, &to);
    let is_level = is_level(line, &room, &quick, &plain);
    if !is_level {
        say(line, &a);
        say(line, &from);
        say(line, &to);
        say_both(line, &quick, &plain);
    }
    is_level
}

fn is_level(
    line: &mut Line<'_>,
    room: &Room,
    quick: &Result<Value, Halt<RunFault>>,
    plain: &Result<Node, RunFault>,
) -> bool {
    if room.is_short() {
        line.fall_short();
    }
    are_same(quick, plain)
}

fn say_both(
    line: &mut Line<'_>,
    quick: &Result<Value, Halt<RunFault>>,
    plain: &Result<Node, RunFault>,
) {
    say(line, quick);
    say(line, plain);
}

fn say<T: Debug>(line: &mut Line<'_>, it: &T) {
    line.show_bare(it);
    line.say("; ");
}
