// What an operator gives of its operands, by what these are. An operand of another kind is a fault before all others.
//
// Only a set of numbers from one to another and a set of subsets are tested for their size, since they alone are large
// where their operands are small.

use crate::maps::{by_keys, by_values, found};
use crate::room::Room;
use crate::sequences::{item_at, items_between, joined, overridden};
use crate::sets::{has, interval};
use crate::{maps, numbers, sequences, sets, sets_of_sets};
use vdm_kinds::{Operator, RunFault};
use vdm_values::{Node, Value};

/// What an operator gives of one operand.
pub fn unary(room: &mut Room, operator: Operator, a: &Value) -> Result<Node, RunFault> {
    match a.node() {
        Node::Int(m) => numbers::of_one(operator, *m),
        Node::Bool(p) => numbers::of_truth(operator, *p),
        Node::Set(members) => sets_of_sets::of_one(room, operator, members.as_slice()),
        Node::Seq(items) => sequences::of_one(room, operator, items.as_slice()),
        Node::Map(pairs) => maps::of_one(room, operator, pairs.as_slice()),
        _ => Err(RunFault::TypeFault),
    }
}

/// What an operator gives of two operands.
pub fn binary(room: &mut Room, operator: Operator, a: &Value, b: &Value) -> Result<Node, RunFault> {
    match operator {
        Operator::Equal => Ok(Node::Bool(a == b)),
        Operator::NotEqual => Ok(Node::Bool(a != b)),
        Operator::InSet => is_member(a, b),
        Operator::NotInSet => is_no_member(a, b),
        Operator::LookUp => look_up(room, a, b),
        _ => by_kinds(room, operator, a, b),
    }
}

fn by_kinds(room: &mut Room, operator: Operator, a: &Value, b: &Value) -> Result<Node, RunFault> {
    match (a.node(), b.node()) {
        (Node::Int(m), Node::Int(n)) => of_numbers(room, operator, *m, *n),
        (Node::Bool(p), Node::Bool(q)) => numbers::of_truths(operator, *p, *q),
        (Node::Set(a), Node::Set(b)) => sets::of_two(room, operator, a.as_slice(), b.as_slice()),
        (Node::Seq(a), Node::Seq(b)) => of_sequences(room, operator, a.as_slice(), b.as_slice()),
        (Node::Map(a), Node::Map(b)) => maps::of_two(room, operator, a.as_slice(), b.as_slice()),
        (Node::Seq(a), Node::Map(b)) => replaced(room, operator, a.as_slice(), b.as_slice()),
        (Node::Set(a), Node::Map(b)) => by_keys(room, operator, a.as_slice(), b.as_slice()),
        (Node::Map(a), Node::Set(b)) => by_values(room, operator, a.as_slice(), b.as_slice()),
        _ => Err(RunFault::TypeFault),
    }
}

fn of_numbers(room: &mut Room, operator: Operator, m: i128, n: i128) -> Result<Node, RunFault> {
    match operator {
        Operator::Interval => interval(room, m, n),
        _ => numbers::of_two(operator, m, n),
    }
}

fn of_sequences(
    room: &mut Room,
    operator: Operator,
    a: &[Value],
    b: &[Value],
) -> Result<Node, RunFault> {
    match operator {
        Operator::Concatenation => Ok(joined(room, a, b)),
        _ => Err(RunFault::TypeFault),
    }
}

fn replaced(
    room: &mut Room,
    operator: Operator,
    items: &[Value],
    pairs: &[(Value, Value)],
) -> Result<Node, RunFault> {
    match operator {
        Operator::Override => overridden(room, items, pairs),
        _ => Err(RunFault::TypeFault),
    }
}

fn is_member(value: &Value, set: &Value) -> Result<Node, RunFault> {
    match set.node() {
        Node::Set(members) => Ok(Node::Bool(has(members.as_slice(), value))),
        _ => Err(RunFault::TypeFault),
    }
}

fn is_no_member(value: &Value, set: &Value) -> Result<Node, RunFault> {
    match set.node() {
        Node::Set(members) => Ok(Node::Bool(!has(members.as_slice(), value))),
        _ => Err(RunFault::TypeFault),
    }
}

fn look_up(room: &mut Room, a: &Value, b: &Value) -> Result<Node, RunFault> {
    match (a.node(), b.node()) {
        (Node::Seq(items), Node::Int(position)) => {
            there(room, item_at(items.as_slice(), *position))
        }
        (Node::Map(pairs), _) => there(room, found(pairs.as_slice(), b)),
        _ => Err(RunFault::TypeFault),
    }
}

fn there(room: &mut Room, value: Option<&Value>) -> Result<Node, RunFault> {
    match value {
        Some(value) => Ok(room.node(value)),
        None => Err(RunFault::NotInDomain),
    }
}

/// The items from one position to another, of those that exist.
pub fn part(room: &mut Room, a: &Value, from: &Value, to: &Value) -> Result<Node, RunFault> {
    match (a.node(), from.node(), to.node()) {
        (Node::Seq(items), Node::Int(from), Node::Int(to)) => {
            Ok(items_between(room, items.as_slice(), *from, *to))
        }
        _ => Err(RunFault::TypeFault),
    }
}
