// `time operator KIND N`: how many parts has what an operator gives, and the nanoseconds of the call. The operands have N
// parts each: the multiples of 2 and of 3 (`union`, `inter`), the greatest of N members (`in-set`), two sequences (`^`),
// one (`inds`, `elems`), sequences of ten items (`conc`), sets of ten members (`dunion`), maps of ten pairs (`merge`), or two
// maps that are the same (`munion`, `++`).

use crate::operands::{identity, maps, multiples, number, parts, sequence, sets};
use row_values::{nanoseconds, say_time};
use row_words::Line;
use std::rt::Clock;
use std::time::Instant;
use strict_operators::{binary, unary};
use vdm_kinds::Operator;
use vdm_values::{Node, Value};

/// Says how much was made, and how many nanoseconds it took.
pub fn answer_time<R: Clock>(rt: &R, line: &mut Line<'_>) {
    let kind = line.word();
    let count = u64::from(line.number());
    match kind {
        "union" => time_sets(rt, line, Operator::Union, count),
        "inter" => time_sets(rt, line, Operator::Inter, count),
        "in-set" => time_member(rt, line, count),
        "^" => time_sequences(rt, line, count),
        "inds" | "elems" => time_sequence(rt, line, kind, count),
        "conc" | "dunion" | "merge" => time_parts(rt, line, kind, count),
        "munion" => time_maps(rt, line, Operator::MapUnion, count),
        "++" => time_maps(rt, line, Operator::Override, count),
        _ => line.refuse(),
    }
}

fn time_sets<R: Clock>(rt: &R, line: &mut Line<'_>, operator: Operator, count: u64) {
    let a = multiples(line, count, 2);
    let b = multiples(line, count, 3);
    time_binary(rt, line, operator, &a, &b);
}

fn time_member<R: Clock>(rt: &R, line: &mut Line<'_>, count: u64) {
    let greatest = number(count.saturating_sub(1));
    let members = multiples(line, count, 1);
    time_binary(rt, line, Operator::InSet, &greatest, &members);
}

fn time_sequences<R: Clock>(rt: &R, line: &mut Line<'_>, count: u64) {
    let a = sequence(line, count);
    let b = sequence(line, count);
    time_binary(rt, line, Operator::Concatenation, &a, &b);
}

fn time_maps<R: Clock>(rt: &R, line: &mut Line<'_>, operator: Operator, count: u64) {
    let a = identity(line, count);
    let b = identity(line, count);
    time_binary(rt, line, operator, &a, &b);
}

fn time_sequence<R: Clock>(rt: &R, line: &mut Line<'_>, kind: &str, count: u64) {
    let a = sequence(line, count);
    match kind {
        "inds" => time_unary(rt, line, Operator::Indices, &a),
        _ => time_unary(rt, line, Operator::Elements, &a),
    }
}

fn time_parts<R: Clock>(rt: &R, line: &mut Line<'_>, kind: &str, count: u64) {
    match kind {
        "conc" => {
            let a = parts(line, count);
            time_unary(rt, line, Operator::DistributedConcatenation, &a);
        }
        "dunion" => {
            let a = sets(line, count);
            time_unary(rt, line, Operator::DistributedUnion, &a);
        }
        _ => {
            let a = maps(line, count);
            time_unary(rt, line, Operator::Merge, &a);
        }
    }
}

fn time_unary<R: Clock>(rt: &R, line: &mut Line<'_>, operator: Operator, a: &Value) {
    let began = Instant::now(rt).ok();
    let made = unary(line.alloc(), operator, a);
    let taken = nanoseconds(rt, line, began);
    match made {
        Ok(value) => say_time(line, size(&value), taken),
        Err(halt) => line.stop(halt),
    }
}

fn time_binary<R: Clock>(rt: &R, line: &mut Line<'_>, operator: Operator, a: &Value, b: &Value) {
    let began = Instant::now(rt).ok();
    let made = binary(line.alloc(), operator, a, b);
    let taken = nanoseconds(rt, line, began);
    match made {
        Ok(value) => say_time(line, size(&value), taken),
        Err(halt) => line.stop(halt),
    }
}

// How many items, members or pairs it has; 1 for what has no parts.
fn size(value: &Value) -> usize {
    match value.node() {
        Node::Set(values) | Node::Seq(values) => values.len(),
        Node::Map(pairs) => pairs.len(),
        _ => 1,
    }
}
