// `time table KIND N`: how many classes the table has of the text of this kind of N classes or operations, 0 where there is none, and
// the nanoseconds of the call that makes it. `time look-ups KIND N`: how many of N look-ups found an operation, by turns in each class
// of the text of this kind, and the nanoseconds of all of them.

ghost use Rattle.std.specs.Prelude.{◌<◌, ◌^◌, length};
ghost use Rattle.text_answers.specs.Answers.{AreOf};

use crate::texts::text_of;
use class_grammar::spec_of_tokens;
use class_meaning::OpFound;
use row_values::{nanoseconds, say_time};
use row_words::Line;
use spec_table::{ClassTable, table_of};
use std::rt::Clock;
use std::time::Instant;
use vdm_kinds::{Halt, Name, Part};
use vdm_lexer::{Lexeme, lex};
use vdm_names::Names;
use vdm_tree::Spec;

/// More names than any text of a kind has.
const MOST: usize = 1_000_000;

/// How many classes a text has in which names are looked up.
const LOOKED: usize = 1_000;

/// What is timed: making a table, or looking up an operation so many times.
#[derive(Clone, Copy)]
struct Timed<'k> {
    asked: &'k str,
    count: usize,
}

/// Says what was found, and how many nanoseconds it took.
pub fn answer_time<R: Clock>(rt: &R, line: &mut Line<'_>, asked: &str) {
    let kind = line.word();
    let count = line.count();
    let size = match asked {
        "table" => count,
        _ => LOOKED,
    };
    let text = text_of(line, kind, size);
    match Names::new(line.alloc()) {
        Ok(mut names) => answer_text(rt, line, Timed { asked, count }, &text, &mut names),
        Err(_) => line.fall_short(),
    }
}

fn answer_text<R: Clock>(
    rt: &R,
    line: &mut Line<'_>,
    timed: Timed<'_>,
    text: &[u8],
    names: &mut Names,
) {
    match lex(line.alloc(), Part::Spec, text) {
        Ok(lexemes) if names.len() < MOST => answer_lexemes(rt, line, timed, text, &lexemes, names),
        Ok(_) | Err(_) => line.refuse(),
    }
}

fn answer_lexemes<R: Clock>(
    rt: &R,
    line: &mut Line<'_>,
    timed: Timed<'_>,
    text: &[u8],
    lexemes: &[Lexeme],
    names: &mut Names,
)
    requires lexemes { AreOf text.now lexemes.now }
    requires names { length names.old < 2 ^ 31 }
{
    match spec_of_tokens(line.alloc(), text, lexemes, names) {
        Ok(spec) => answer_spec(rt, line, timed, spec, names),
        Err(halt) => line.stop(halt),
    }
}

fn answer_spec<R: Clock>(
    rt: &R,
    line: &mut Line<'_>,
    timed: Timed<'_>,
    spec: Spec,
    names: &mut Names,
) {
    match timed.asked {
        "table" => time_table(rt, line, spec),
        _ => answer_look_ups(rt, line, timed.count, spec, names),
    }
}

fn time_table<R: Clock>(rt: &R, line: &mut Line<'_>, spec: Spec) {
    let began = Instant::now(rt).ok();
    let found = table_of(line.alloc(), spec);
    let taken = nanoseconds(rt, line, began);
    match found {
        Ok(table) => say_time(line, table.classes().len(), taken),
        Err(Halt::Of(_)) => say_time(line, 0, taken),
        Err(Halt::OutOfMemory) => line.fall_short(),
    }
}

fn answer_look_ups<R: Clock>(
    rt: &R,
    line: &mut Line<'_>,
    count: usize,
    spec: Spec,
    names: &mut Names,
) {
    match table_of(line.alloc(), spec) {
        Ok(table) => time_look_ups(rt, line, count, &table, names),
        Err(halt) => line.stop(halt),
    }
}

fn time_look_ups<R: Clock>(
    rt: &R,
    line: &mut Line<'_>,
    count: usize,
    table: &ClassTable,
    names: &mut Names,
) {
    let name = looked_up(line, names);
    let began = Instant::now(rt).ok();
    let found = found_among(table, name, count);
    let taken = nanoseconds(rt, line, began);
    say_time(line, found, taken);
}

fn looked_up(line: &mut Line<'_>, names: &mut Names) -> Name {
    if names.len() < MOST {
        let name = names.name("f");
        line.made(name, Name::IO)
    } else {
        line.refuse();
        Name::IO
    }
}

// How many of so many look-ups of the name find an operation, in one class after the other, over and over.
fn found_among(table: &ClassTable, name: Name, count: usize) -> usize {
    let mut found: usize = 0;
    let mut left = count;
    for _round in 0..count {
        for class in table.classes() {
            if left == 0 {
                return found;
            }
            left = left.saturating_sub(1);
            if let OpFound::One(_) = table.find_op(*class, name, 0) {
                found = found.saturating_add(1);
            }
        }
    }
    found
}
