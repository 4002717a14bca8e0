// `order V V`: which of two values comes first. `rising V ..`: that each value is below those behind it, above those
// before it and level with itself. `apart V ..`: that the copy of each value equals that value and no other. `same V V`:
// whether the two are one. `taken V`: the value that the node of a copy makes, which shares it. `size V`: nodes and levels.

use row_desk::Desk;
use row_words::Line;
use std::alloc::Global;
use std::cmp::Ordering;
use vdm_kinds::OutOfMemory;
use vdm_sets::{depth, nodes};
use vdm_values::{Value, order};

pub(crate) fn answer(desk: &mut Desk, line: &mut Line<'_>, word: &str) {
    match word {
        "rising" => say_all(line, are_rising(&desk.values), desk.values.len()),
        "apart" => say_apart(line, &desk.values),
        "taken" => taken(desk, line),
        "size" => size(desk, line),
        "same" => same(line, &desk.values),
        _ => compared(line, &desk.values),
    }
    line.say_names(&desk.names);
}

fn taken(desk: &mut Desk, line: &mut Line<'_>) {
    let value = desk.value(line);
    match retaken(line.alloc(), value) {
        Ok(made) => line.show(&made),
        Err(_) => line.fall_short(),
    }
}

// The value that the node of a copy makes, where another value shares that node.
fn retaken(alloc: Global, value: Value) -> Result<Value, OutOfMemory> {
    let shared = value.share(alloc)?;
    let node = shared.copy(alloc)?.into_node(alloc)?;
    Ok(Value::new(node))
}

fn size(desk: &mut Desk, line: &mut Line<'_>) {
    let value = desk.value(line);
    say_size(line, &value);
}

fn same(line: &mut Line<'_>, values: &[Value]) {
    match values {
        [first, second] => line.say_whether(first == second),
        _ => line.refuse(),
    }
}

fn compared(line: &mut Line<'_>, values: &[Value]) {
    match values {
        [first, second] => line.say(order_word(first, second)),
        _ => line.refuse(),
    }
}

// By the function and both operators, which have to agree.
fn order_word(first: &Value, second: &Value) -> &'static str {
    let order = order(first, second);
    if first.cmp(second) != order || (first < second) != (order == Ordering::Less) {
        return "in two ways";
    }
    match order {
        Ordering::Less => "less",
        Ordering::Equal => "equal",
        Ordering::Greater => "greater",
    }
}

fn are_rising(values: &[Value]) -> bool {
    for (i, first) in values.iter().enumerate() {
        for (j, second) in values.iter().enumerate() {
            if order(first, second) != i.cmp(&j) {
                return false;
            }
        }
    }
    true
}

fn say_apart(line: &mut Line<'_>, values: &[Value]) {
    let mut are_apart = true;
    for (i, value) in values.iter().enumerate() {
        match value.copy(line.alloc()) {
            Ok(copy) => are_apart = are_apart && equals_only(&copy, values, i),
            Err(_) => line.fall_short(),
        }
    }
    say_all(line, are_apart, values.len());
}

fn equals_only(copy: &Value, values: &[Value], index: usize) -> bool {
    for (j, value) in values.iter().enumerate() {
        if (copy == value) != (index == j) {
            return false;
        }
    }
    true
}

fn say_all(line: &mut Line<'_>, holds: bool, count: usize) {
    line.say(if holds { "all " } else { "not all " });
    line.say_count(count);
}

/// Says nodes and levels of a value.
pub(crate) fn say_size(line: &mut Line<'_>, value: &Value) {
    line.say_number(nodes(value));
    line.say(" nodes, ");
    line.say_number(depth(value));
    line.say(" levels");
}
