// `time grammar KIND N`: how many lexemes the tree has that is read of the text of this kind of some N bytes, 0 where the text
// has none, and the nanoseconds of the call that reads it and lets it go.

ghost use Rattle.std.specs.Prelude.{◌<◌, ◌^◌, length};
ghost use Rattle.text_answers.specs.Answers.{AreOf};

use crate::reading::read;
use crate::texts::text_of;
use row_values::{nanoseconds, say_time};
use row_words::Line;
use std::rt::Clock;
use std::time::Instant;
use vdm_kinds::{Halt, Part};
use vdm_lexer::{Lexeme, lex};
use vdm_names::Names;

/// More names than any text of a kind has.
const MOST: usize = 1_000_000;

/// Says what was read, and how many nanoseconds it took.
pub fn answer_time<R: Clock>(rt: &R, line: &mut Line<'_>) {
    let kind = line.word();
    let length = line.count();
    match Names::new(line.alloc()) {
        Ok(mut names) => answer_text(rt, line, kind, length, &mut names),
        Err(_) => line.fall_short(),
    }
}

fn answer_text<R: Clock>(
    rt: &R,
    line: &mut Line<'_>,
    kind: &str,
    length: usize,
    names: &mut Names,
) {
    let text = text_of(line, kind, length);
    match lex(line.alloc(), Part::Spec, &text) {
        Ok(lexemes) if !lexemes.is_empty() && names.len() < MOST => {
            time_reading(rt, line, kind, &text, &lexemes, names)
        }
        Ok(_) | Err(_) => line.refuse(),
    }
}

fn time_reading<R: Clock>(
    rt: &R,
    line: &mut Line<'_>,
    kind: &str,
    text: &[u8],
    lexemes: &[Lexeme],
    names: &mut Names,
)
    requires lexemes { AreOf text.now lexemes.now }
    requires some { 0 < length lexemes.now }
    requires names { length names.old < 2 ^ 31 }
{
    let began = Instant::now(rt).ok();
    let found = read(line.alloc(), kind, text, lexemes, names);
    let taken = nanoseconds(rt, line, began);
    match found {
        Ok(next) => say_time(line, next, taken),
        Err(Halt::Of(_)) => say_time(line, 0, taken),
        Err(Halt::OutOfMemory) => line.fall_short(),
    }
}
