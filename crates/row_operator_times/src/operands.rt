// What operators are timed with: sets, sequences and maps of numbers that rise by one step.

use row_desk::made_value;
use row_words::Line;
use vdm_sets::{map_from, set_from};
use vdm_values::{Node, PairList, Value, ValueList};

/// How many items has each part of a sequence of sequences, a set of sets or a set of maps.
const PART: u64 = 10;

/// The set of the first multiples of a number, from 0, and of how many.
pub(crate) fn multiples(line: &mut Line<'_>, count: u64, step: u64) -> Value {
    let items = numbers(line, 0, count, step);
    set_of(line, items)
}

/// The sequence of so many numbers.
pub(crate) fn sequence(line: &mut Line<'_>, count: u64) -> Value {
    Value::new(Node::Seq(numbers(line, 0, count, 1)))
}

/// A sequence of sequences that have so many items together, or up to nine fewer.
pub(crate) fn parts(line: &mut Line<'_>, count: u64) -> Value {
    let mut parts = Vec::new(line.alloc());
    for _part in 0..count / PART {
        let part = sequence(line, PART);
        line.put(&mut parts, part);
    }
    Value::new(Node::Seq(parts))
}

/// A set of sets that have so many members together, or up to nine fewer, and none in common.
pub(crate) fn sets(line: &mut Line<'_>, count: u64) -> Value {
    let mut sets = Vec::new(line.alloc());
    for part in 0..count / PART {
        let items = numbers(line, part.wrapping_mul(PART), PART, 1);
        let set = set_of(line, items);
        line.put(&mut sets, set);
    }
    set_of(line, sets)
}

/// A set of maps that have so many pairs together, or up to nine fewer, and no key in common.
pub(crate) fn maps(line: &mut Line<'_>, count: u64) -> Value {
    let mut maps = Vec::new(line.alloc());
    for part in 0..count / PART {
        let map = identity_from(line, part.wrapping_mul(PART), PART);
        line.put(&mut maps, map);
    }
    set_of(line, maps)
}

/// The map that has each of so many numbers as its own value.
pub(crate) fn identity(line: &mut Line<'_>, count: u64) -> Value {
    identity_from(line, 0, count)
}

fn identity_from(line: &mut Line<'_>, from: u64, count: u64) -> Value {
    let mut pairs = Vec::new(line.alloc());
    for index in 0..count {
        let item = from.wrapping_add(index);
        line.put(&mut pairs, (number(item), number(item)));
    }
    let made = map_from(line.alloc(), PairList::from_vec(pairs));
    made_value(line, made)
}

/// The value of a number.
pub(crate) fn number(item: u64) -> Value {
    Value::new(Node::Int(i128::from(item)))
}

fn set_of(line: &mut Line<'_>, items: Vec<Value>) -> Value {
    let made = set_from(line.alloc(), ValueList::from_vec(items));
    made_value(line, made)
}

fn numbers(line: &mut Line<'_>, from: u64, count: u64, step: u64) -> Vec<Value> {
    let mut values = Vec::new(line.alloc());
    for item in 0..count {
        line.put(
            &mut values,
            number(from.wrapping_add(item.wrapping_mul(step))),
        );
    }
    values
}
