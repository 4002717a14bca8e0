// Sets of sets, and the set of the subsets.

use crate::room::Room;
use crate::sets::has;
use vdm_kinds::{Operator, RunFault};
use vdm_values::{Node, Value};

pub(crate) fn of_one(
    room: &mut Room,
    operator: Operator,
    members: &[Value],
) -> Result<Node, RunFault> {
    match operator {
        Operator::Card => Ok(Node::Int(members.len() as i128)),
        Operator::PowerSet => power_set(room, members),
        Operator::DistributedUnion => union_of_all(room, members),
        Operator::DistributedInter => inter_of_all(room, members),
        Operator::Merge => crate::maps::merge(room, members),
        _ => Err(RunFault::TypeFault),
    }
}

fn are_sets(values: &[Value]) -> bool {
    for value in values {
        if !matches!(value.node(), Node::Set(_)) {
            return false;
        }
    }
    true
}

// The members of a set; none of what is no set.
fn members_of(value: &Value) -> &[Value] {
    match value.node() {
        Node::Set(members) => members.as_slice(),
        _ => &[],
    }
}

fn union_of_all(room: &mut Room, sets: &[Value]) -> Result<Node, RunFault> {
    if !are_sets(sets) {
        return Err(RunFault::TypeFault);
    }
    let mut members = room.list();
    for set in sets {
        room.keep_all(&mut members, members_of(set));
    }
    Ok(Node::Set(room.rising(members)))
}

fn inter_of_all(room: &mut Room, sets: &[Value]) -> Result<Node, RunFault> {
    if !are_sets(sets) {
        return Err(RunFault::TypeFault);
    }
    match sets {
        [] => Err(RunFault::EmptyOperand),
        [first, ..] => Ok(common_to(room, members_of(first), sets)),
    }
}

fn common_to(room: &mut Room, values: &[Value], sets: &[Value]) -> Node {
    let mut members = room.list();
    for value in values {
        if is_in_all(sets, value) {
            room.keep(&mut members, value);
        }
    }
    Node::Set(room.rising(members))
}

fn is_in_all(sets: &[Value], value: &Value) -> bool {
    for set in sets {
        if !has(members_of(set), value) {
            return false;
        }
    }
    true
}

// 15 members have 32,768 subsets, with 245,760 members together.
const MOST_MEMBERS: usize = 14;

fn power_set(room: &mut Room, members: &[Value]) -> Result<Node, RunFault> {
    if members.len() > MOST_MEMBERS {
        return Err(RunFault::SizeLimit);
    }
    let mut subsets = room.list();
    for which in 0..subset_count(members) {
        let subset = subset(room, members, which);
        room.put(&mut subsets, subset);
    }
    Ok(Node::Set(room.rising(subsets)))
}

fn subset_count(members: &[Value]) -> u32 {
    let mut count: u32 = 1;
    for _member in members {
        count = count.wrapping_mul(2);
    }
    count
}

// The members at whose place the number has a 1, where its last binary digit is that of the first member.
fn subset(room: &mut Room, members: &[Value], which: u32) -> Value {
    let mut kept = room.list();
    let mut rest = which;
    for member in members {
        if rest % 2 == 1 {
            room.keep(&mut kept, member);
        }
        rest /= 2;
    }
    room.set(kept)
}
