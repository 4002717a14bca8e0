// Sequences: their positions are counted from 1.

use crate::maps::found;
use crate::room::Room;
use vdm_kinds::{Operator, RunFault};
use vdm_values::{Node, Value};

pub(crate) fn of_one(
    room: &mut Room,
    operator: Operator,
    items: &[Value],
) -> Result<Node, RunFault> {
    match operator {
        Operator::Length => Ok(Node::Int(items.len() as i128)),
        Operator::Indices => Ok(indices(room, items)),
        Operator::Elements => Ok(elements(room, items)),
        Operator::DistributedConcatenation => joined_all(room, items),
        Operator::Head => head(room, items),
        Operator::Tail => tail(room, items),
        _ => Err(RunFault::TypeFault),
    }
}

fn indices(room: &mut Room, items: &[Value]) -> Node {
    let mut members = room.list();
    let mut position: i128 = 0;
    for _item in items {
        position = position.wrapping_add(1);
        room.put(&mut members, Value::new(Node::Int(position)));
    }
    Node::Set(room.rising(members))
}

fn elements(room: &mut Room, items: &[Value]) -> Node {
    let mut members = room.list();
    room.keep_all(&mut members, items);
    Node::Set(room.rising(members))
}

fn joined_all(room: &mut Room, sequences: &[Value]) -> Result<Node, RunFault> {
    if !are_sequences(sequences) {
        return Err(RunFault::TypeFault);
    }
    let mut items = room.list();
    for sequence in sequences {
        if let Node::Seq(others) = sequence.node() {
            room.keep_all(&mut items, others.as_slice());
        }
    }
    Ok(Node::Seq(items))
}

fn are_sequences(values: &[Value]) -> bool {
    for value in values {
        if !matches!(value.node(), Node::Seq(_)) {
            return false;
        }
    }
    true
}

fn head(room: &mut Room, items: &[Value]) -> Result<Node, RunFault> {
    match items {
        [] => Err(RunFault::EmptyOperand),
        [first, ..] => Ok(room.node(first)),
    }
}

fn tail(room: &mut Room, items: &[Value]) -> Result<Node, RunFault> {
    match items {
        [] => Err(RunFault::EmptyOperand),
        [_, others @ ..] => {
            let mut kept = room.list();
            room.keep_all(&mut kept, others);
            Ok(Node::Seq(kept))
        }
    }
}

/// The items of the one, then those of the other.
pub(crate) fn joined(room: &mut Room, a: &[Value], b: &[Value]) -> Node {
    let mut items = room.list();
    room.keep_all(&mut items, a);
    room.keep_all(&mut items, b);
    Node::Seq(items)
}

/// The item at the position.
pub(crate) fn item_at(items: &[Value], wanted: i128) -> Option<&Value> {
    let mut position: i128 = 0;
    for item in items {
        position = position.wrapping_add(1);
        if position == wanted {
            return Some(item);
        }
    }
    None
}

/// The items whose positions lie from the one to the other.
pub(crate) fn items_between(room: &mut Room, items: &[Value], from: i128, to: i128) -> Node {
    let mut kept = room.list();
    let mut position: i128 = 0;
    for item in items {
        position = position.wrapping_add(1);
        if from <= position && position <= to {
            room.keep(&mut kept, item);
        }
    }
    Node::Seq(kept)
}

/// Each item, or what the map has at its position.
pub(crate) fn overridden(
    room: &mut Room,
    items: &[Value],
    pairs: &[(Value, Value)],
) -> Result<Node, RunFault> {
    for pair in pairs {
        if !is_position(items, &pair.0) {
            return Err(RunFault::NotInDomain);
        }
    }
    Ok(replaced(room, items, pairs))
}

fn is_position(items: &[Value], key: &Value) -> bool {
    match key.node() {
        Node::Int(number) => item_at(items, *number).is_some(),
        _ => false,
    }
}

fn replaced(room: &mut Room, items: &[Value], pairs: &[(Value, Value)]) -> Node {
    let mut kept = room.list();
    let mut position: i128 = 0;
    for item in items {
        position = position.wrapping_add(1);
        match found(pairs, &Value::new(Node::Int(position))) {
            Some(value) => room.keep(&mut kept, value),
            None => room.keep(&mut kept, item),
        }
    }
    Node::Seq(kept)
}
