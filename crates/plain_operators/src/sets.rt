// Sets: lists of members that are searched from the front.

use crate::room::Room;
use vdm_kinds::{Operator, RunFault};
use vdm_values::{Node, Value};

pub(crate) fn of_two(
    room: &mut Room,
    operator: Operator,
    a: &[Value],
    b: &[Value],
) -> Result<Node, RunFault> {
    match operator {
        Operator::Union => Ok(union(room, a, b)),
        Operator::Inter => Ok(inter(room, a, b)),
        Operator::Difference => Ok(difference(room, a, b)),
        Operator::Subset => Ok(Node::Bool(is_subset(a, b))),
        Operator::ProperSubset => Ok(Node::Bool(is_subset(a, b) && a != b)),
        _ => Err(RunFault::TypeFault),
    }
}

/// Whether the value is one of them.
pub(crate) fn has(values: &[Value], value: &Value) -> bool {
    for one in values {
        if one == value {
            return true;
        }
    }
    false
}

fn is_subset(a: &[Value], b: &[Value]) -> bool {
    for value in a {
        if !has(b, value) {
            return false;
        }
    }
    true
}

fn union(room: &mut Room, a: &[Value], b: &[Value]) -> Node {
    let mut members = room.list();
    room.keep_all(&mut members, a);
    room.keep_all(&mut members, b);
    Node::Set(room.rising(members))
}

fn inter(room: &mut Room, a: &[Value], b: &[Value]) -> Node {
    let mut members = room.list();
    for value in a {
        if has(b, value) {
            room.keep(&mut members, value);
        }
    }
    Node::Set(room.rising(members))
}

fn difference(room: &mut Room, a: &[Value], b: &[Value]) -> Node {
    let mut members = room.list();
    for value in a {
        if !has(b, value) {
            room.keep(&mut members, value);
        }
    }
    Node::Set(room.rising(members))
}

// With more members a set of numbers is too large.
const MOST_NUMBERS: u128 = 199_999;

/// The numbers from the one to the other.
pub(crate) fn interval(room: &mut Room, from: i128, to: i128) -> Result<Node, RunFault> {
    if from > to {
        return Ok(Node::Set(room.list()));
    }
    if to.abs_diff(from) >= MOST_NUMBERS {
        return Err(RunFault::SizeLimit);
    }
    let mut members = room.list();
    for number in from..to {
        room.put(&mut members, Value::new(Node::Int(number)));
    }
    room.put(&mut members, Value::new(Node::Int(to)));
    Ok(Node::Set(members))
}
