// `time set KIND N`, `time lex KIND N` and, in `text_times`, `time text KIND N`: what was made, and the nanoseconds of the
// call. Of a set it is how many members it has: the items are N numbers, each one less than the one before (`falling`), or
// in no order (`scattered`), or one number (`equal`). Of a text of N bytes it is how many lexemes it has, or `refused`:
// identifiers and blanks (`identifiers`), signs alone (`signs`), or a comment that isn't closed (`comment`). A clock that
// cannot be read makes it unreadable.

use crate::text_times::time_text;
use row_words::Line;
use std::rt::Clock;
use std::time::Instant;
use vdm_kinds::{Halt, Part};
use vdm_lexer::lex;
use vdm_sets::set_from;
use vdm_values::{Node, Value, ValueList};

/// A prime, so its multiples have every remainder of a count that it does not divide.
const STEP: u64 = 7919;

/// Says what a call made, and how many nanoseconds it took.
pub fn answer_time<R: Clock>(rt: &R, line: &mut Line<'_>, word: &str) {
    match word {
        "set" => time_set(rt, line),
        "lex" => time_lex(rt, line),
        "text" => time_text(rt, line),
        _ => line.refuse(),
    }
}

fn time_set<R: Clock>(rt: &R, line: &mut Line<'_>) {
    let kind = line.word();
    let count = line.number();
    let items = items(line, kind, u64::from(count));
    let began = Instant::now(rt).ok();
    let made = set_from(line.alloc(), items);
    let taken = nanoseconds(rt, line, began);
    match made {
        Ok(set) => say_time(line, members(&set), taken),
        Err(_) => line.fall_short(),
    }
}

/// The nanoseconds since then. A clock that cannot be read makes the line unreadable.
pub fn nanoseconds<R: Clock>(rt: &R, line: &mut Line<'_>, began: Option<Instant>) -> u64 {
    let taken = began.and_then(|it| it.elapsed(rt).ok());
    match taken {
        Some(taken) => u64::try_from(taken.as_nanos()).unwrap_or(u64::MAX),
        None => {
            line.refuse();
            0
        }
    }
}

/// Says how much was made, and the nanoseconds.
pub fn say_time(line: &mut Line<'_>, count: usize, taken: u64) {
    line.say_count(count);
    line.say(" ");
    line.say_number(taken);
}

fn items(line: &mut Line<'_>, kind: &str, count: u64) -> ValueList {
    let mut values = Vec::new(line.alloc());
    for number in 0..count {
        let number = match kind {
            "falling" => count - number,
            "scattered" => number.wrapping_mul(STEP) % count,
            _ => 1,
        };
        line.put(&mut values, Value::new(Node::Int(i128::from(number))));
    }
    ValueList::from_vec(values)
}

fn members(set: &Value) -> usize {
    match set.node() {
        Node::Set(values) => values.len(),
        _ => 0,
    }
}

fn time_lex<R: Clock>(rt: &R, line: &mut Line<'_>) {
    let kind = line.word();
    let length = line.number();
    let text = text_of(line, kind, length);
    let began = Instant::now(rt).ok();
    let found = lex(line.alloc(), Part::Spec, text.as_slice());
    let taken = nanoseconds(rt, line, began);
    match found {
        Ok(lexemes) => say_time(line, lexemes.len(), taken),
        Err(Halt::Of(_)) => say_refused(line, taken),
        Err(Halt::OutOfMemory) => line.fall_short(),
    }
}

fn say_refused(line: &mut Line<'_>, taken: u64) {
    line.say("refused ");
    line.say_number(taken);
}

fn text_of(line: &mut Line<'_>, kind: &str, length: u32) -> Vec<u8> {
    match kind {
        "identifiers" => repeated(line, b"", b"counter x' ", length),
        "signs" => repeated(line, b"", b"<=>|->...:->", length),
        _ => repeated(line, b"/* ", b"not closed * / ", length),
    }
}

// The bytes of the front, and then those of the part again and again, to a length.
fn repeated(line: &mut Line<'_>, front: &[u8], part: &[u8], length: u32) -> Vec<u8> {
    let mut text = Vec::new(line.alloc());
    for byte in front
        .iter()
        .chain(part.iter().cycle())
        .take(length as usize)
    {
        line.put(&mut text, *byte);
    }
    text
}
