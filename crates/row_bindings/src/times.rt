// `time bind KIND N`: how many names are bound, or `none`, and the nanoseconds of the call. The value has N parts, which are numbers that
// rise. The pattern is `[a] ^ b ^ [c]` (`middle`), a set of two names (`pair`) or of three (`triple`), or a tuple of N names (`tuple`).

use expr_tree::Pattern;
use patterns::bind;
use row_desk::made_value;
use row_patterns::RecordTypes;
use row_values::{nanoseconds, say_time};
use row_words::Line;
use std::rt::Clock;
use std::time::Instant;
use vdm_kinds::{Name, Part, Place};
use vdm_sets::set_from;
use vdm_values::{Node, Value, ValueList};

/// Says how many names were bound, and how many nanoseconds it took.
pub fn answer_time<R: Clock>(rt: &R, line: &mut Line<'_>) {
    let kind = line.word();
    let count = line.number();
    match kind {
        "middle" => time_middle(rt, line, count),
        "pair" => time_set(rt, line, 2, count),
        "triple" => time_set(rt, line, 3, count),
        "tuple" => time_tuple(rt, line, count),
        _ => line.refuse(),
    }
}

fn time_middle<R: Clock>(rt: &R, line: &mut Line<'_>, count: u32) {
    let pattern = middle(line);
    let value = Value::new(Node::Seq(numbers(line, count)));
    time(rt, line, &pattern, &value);
}

fn time_set<R: Clock>(rt: &R, line: &mut Line<'_>, names: u32, count: u32) {
    let pattern = Pattern::set(bound(line, 0, names), here());
    let elements = ValueList::from_vec(numbers(line, count));
    let made = set_from(line.alloc(), elements);
    let value = made_value(line, made);
    time(rt, line, &pattern, &value);
}

fn time_tuple<R: Clock>(rt: &R, line: &mut Line<'_>, count: u32) {
    let pattern = Pattern::tuple(bound(line, 0, count), here());
    let value = Value::new(Node::Tuple(numbers(line, count)));
    time(rt, line, &pattern, &value);
}

fn time<R: Clock>(rt: &R, line: &mut Line<'_>, pattern: &Pattern, value: &Value) {
    let given = ValueList::from_vec(Vec::new(line.alloc()));
    let types = RecordTypes::new(line.alloc());
    let began = Instant::now(rt).ok();
    let made = bind(line.alloc(), pattern, value, &given, types.scope, &types);
    let taken = nanoseconds(rt, line, began);
    match made {
        Ok(Some(list)) => say_time(line, list.len(), taken),
        Ok(None) => {
            line.say("none ");
            line.say_number(taken);
        }
        Err(halt) => line.stop(halt),
    }
}

// `[0] ^ 1 ^ [2]`, by the numbers of the names.
fn middle(line: &mut Line<'_>) -> Pattern {
    let mut pieces = Vec::new(line.alloc());
    let first = Pattern::sequence(bound(line, 0, 1), here());
    line.put(&mut pieces, first);
    line.put(&mut pieces, Pattern::bound(Name(1), here()));
    let last = Pattern::sequence(bound(line, 2, 3), here());
    line.put(&mut pieces, last);
    Pattern::concatenation(pieces, here())
}

// The names from one on, up to another.
fn bound(line: &mut Line<'_>, first: u32, end: u32) -> Vec<Pattern> {
    let mut patterns = Vec::new(line.alloc());
    for number in first..end {
        line.put(&mut patterns, Pattern::bound(Name(number), here()));
    }
    patterns
}

fn numbers(line: &mut Line<'_>, count: u32) -> Vec<Value> {
    let mut values = Vec::new(line.alloc());
    for number in 0..count {
        line.put(&mut values, Value::new(Node::Int(i128::from(number))));
    }
    values
}

fn here() -> Place {
    Place {
        part: Part::Expr,
        line: 1,
        column: 1,
    }
}
