// `unary SIGN V`, `binary SIGN V V`: what an operator gives of its operands, or the number and the name of its fault.
// `part V V V`: the items from one position to another. `unary-size SIGN V`, `binary-size SIGN V V`: how many nodes and
// levels has what an operator gives. `signs.rt` has the signs.

use crate::signs::{infix, prefix};
use row_desk::Desk;
use row_words::Line;
use strict_operators::{binary, unary};
use vdm_kinds::{Halt, RunFault};
use vdm_sets::{depth, nodes};
use vdm_values::Value;

/// Answers a request; tells whether the word is one of this library's.
pub fn answer(desk: &mut Desk, line: &mut Line<'_>, word: &str) -> bool {
    match word {
        "unary" | "unary-size" => {
            let made = one(desk, line);
            say(line, word, made);
        }
        "binary" | "binary-size" => {
            let made = two(desk, line);
            say(line, word, made);
        }
        "part" => {
            let made = three(desk, line);
            say(line, word, made);
        }
        _ => return false,
    }
    line.say_names(&desk.names);
    true
}

fn one(desk: &mut Desk, line: &mut Line<'_>) -> Result<Value, Halt<RunFault>> {
    let operator = prefix(line);
    desk.read(line);
    let a = desk.value(line);
    unary(line.alloc(), operator, &a)
}

fn two(desk: &mut Desk, line: &mut Line<'_>) -> Result<Value, Halt<RunFault>> {
    let operator = infix(line);
    desk.read(line);
    let b = desk.value(line);
    let a = desk.value(line);
    binary(line.alloc(), operator, &a, &b)
}

fn three(desk: &mut Desk, line: &mut Line<'_>) -> Result<Value, Halt<RunFault>> {
    desk.read(line);
    let to = desk.value(line);
    let from = desk.value(line);
    let sequence = desk.value(line);
    seq_ops::part(line.alloc(), &sequence, &from, &to)
}

fn say(line: &mut Line<'_>, word: &str, made: Result<Value, Halt<RunFault>>) {
    match made {
        Ok(value) => say_value(line, word, &value),
        Err(Halt::Of(fault)) => line.say_fault(fault.number(), fault.name()),
        Err(Halt::OutOfMemory) => line.fall_short(),
    }
}

fn say_value(line: &mut Line<'_>, word: &str, value: &Value) {
    match word {
        "unary-size" | "binary-size" => {
            line.say_number(nodes(value));
            line.say(" nodes, ");
            line.say_number(depth(value));
            line.say(" levels");
        }
        _ => line.show(value),
    }
}
