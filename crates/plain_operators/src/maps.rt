// Maps: lists of pairs that are searched from the front.

use crate::room::Room;
use crate::sets::has;
use vdm_kinds::{Operator, RunFault};
use vdm_values::{Node, Value};

pub(crate) fn of_one(
    room: &mut Room,
    operator: Operator,
    pairs: &[(Value, Value)],
) -> Result<Node, RunFault> {
    match operator {
        Operator::Domain => Ok(domain(room, pairs)),
        Operator::Range => Ok(range(room, pairs)),
        Operator::Inverse => inverse(room, pairs),
        _ => Err(RunFault::TypeFault),
    }
}

pub(crate) fn of_two(
    room: &mut Room,
    operator: Operator,
    a: &[(Value, Value)],
    b: &[(Value, Value)],
) -> Result<Node, RunFault> {
    match operator {
        Operator::Override => Ok(overridden(room, a, b)),
        Operator::MapUnion => {
            let mut pairs = room.list();
            keep_pairs(room, &mut pairs, a);
            keep_pairs(room, &mut pairs, b);
            without_conflict(room, pairs)
        }
        Operator::Composition => composed(room, a, b),
        _ => Err(RunFault::TypeFault),
    }
}

/// What the first pair with the key has.
pub(crate) fn found<'a>(pairs: &'a [(Value, Value)], key: &Value) -> Option<&'a Value> {
    for pair in pairs {
        if pair.0 == *key {
            return Some(&pair.1);
        }
    }
    None
}

fn keep_pairs(room: &mut Room, list: &mut Vec<(Value, Value)>, pairs: &[(Value, Value)]) {
    for pair in pairs {
        room.keep_pair(list, &pair.0, &pair.1);
    }
}

fn domain(room: &mut Room, pairs: &[(Value, Value)]) -> Node {
    let mut members = room.list();
    for pair in pairs {
        room.keep(&mut members, &pair.0);
    }
    Node::Set(room.rising(members))
}

fn range(room: &mut Room, pairs: &[(Value, Value)]) -> Node {
    let mut members = room.list();
    for pair in pairs {
        room.keep(&mut members, &pair.1);
    }
    Node::Set(room.rising(members))
}

fn inverse(room: &mut Room, pairs: &[(Value, Value)]) -> Result<Node, RunFault> {
    let mut turned = room.list();
    for pair in pairs {
        room.keep_pair(&mut turned, &pair.1, &pair.0);
    }
    without_conflict(room, turned)
}

// The map of the pairs, no two of which may have one key and different values.
fn without_conflict(room: &mut Room, pairs: Vec<(Value, Value)>) -> Result<Node, RunFault> {
    if has_conflict(pairs.as_slice()) {
        return Err(RunFault::MapConflict);
    }
    Ok(Node::Map(room.rising(pairs)))
}

fn has_conflict(pairs: &[(Value, Value)]) -> bool {
    for pair in pairs {
        for other in pairs {
            if pair.0 == other.0 && pair.1 != other.1 {
                return true;
            }
        }
    }
    false
}

fn overridden(room: &mut Room, a: &[(Value, Value)], b: &[(Value, Value)]) -> Node {
    let mut pairs = room.list();
    for pair in a {
        if found(b, &pair.0).is_none() {
            room.keep_pair(&mut pairs, &pair.0, &pair.1);
        }
    }
    keep_pairs(room, &mut pairs, b);
    Node::Map(room.rising(pairs))
}

// First the right one, then the left one.
fn composed(
    room: &mut Room,
    left: &[(Value, Value)],
    right: &[(Value, Value)],
) -> Result<Node, RunFault> {
    let mut pairs = room.list();
    for pair in right {
        match found(left, &pair.1) {
            Some(value) => room.keep_pair(&mut pairs, &pair.0, value),
            None => return Err(RunFault::NotInDomain),
        }
    }
    Ok(Node::Map(room.rising(pairs)))
}

/// The pairs of the map whose keys are in the set, or those whose keys are not.
pub(crate) fn by_keys(
    room: &mut Room,
    operator: Operator,
    members: &[Value],
    pairs: &[(Value, Value)],
) -> Result<Node, RunFault> {
    match operator {
        Operator::DomainRestriction => Ok(with_keys(room, members, pairs, true)),
        Operator::DomainRemoval => Ok(with_keys(room, members, pairs, false)),
        _ => Err(RunFault::TypeFault),
    }
}

fn with_keys(room: &mut Room, members: &[Value], pairs: &[(Value, Value)], are_kept: bool) -> Node {
    let mut kept = room.list();
    for pair in pairs {
        if has(members, &pair.0) == are_kept {
            room.keep_pair(&mut kept, &pair.0, &pair.1);
        }
    }
    Node::Map(room.rising(kept))
}

/// The pairs of the map whose values are in the set, or those whose values are not.
pub(crate) fn by_values(
    room: &mut Room,
    operator: Operator,
    pairs: &[(Value, Value)],
    members: &[Value],
) -> Result<Node, RunFault> {
    match operator {
        Operator::RangeRestriction => Ok(with_values(room, members, pairs, true)),
        Operator::RangeRemoval => Ok(with_values(room, members, pairs, false)),
        _ => Err(RunFault::TypeFault),
    }
}

fn with_values(
    room: &mut Room,
    members: &[Value],
    pairs: &[(Value, Value)],
    are_kept: bool,
) -> Node {
    let mut kept = room.list();
    for pair in pairs {
        if has(members, &pair.1) == are_kept {
            room.keep_pair(&mut kept, &pair.0, &pair.1);
        }
    }
    Node::Map(room.rising(kept))
}

/// The map of the pairs of all maps.
pub(crate) fn merge(room: &mut Room, maps: &[Value]) -> Result<Node, RunFault> {
    if !are_maps(maps) {
        return Err(RunFault::TypeFault);
    }
    let mut pairs = room.list();
    for map in maps {
        if let Node::Map(others) = map.node() {
            keep_pairs(room, &mut pairs, others.as_slice());
        }
    }
    without_conflict(room, pairs)
}

fn are_maps(values: &[Value]) -> bool {
    for value in values {
        if !matches!(value.node(), Node::Map(_)) {
            return false;
        }
    }
    true
}
