// `cuts KIND TEXT`: a character for each front of the lexemes of a text, from none to all of them. `w`: the front alone is a
// whole text of this kind, `statement` or `specification`. `.`: it is refused with 2 at its end, so something may stand behind
// it. `x`: any other answer.

ghost use Rattle.std.specs.Prelude.{◌<◌, ◌^◌, length};
ghost use Rattle.text_answers.specs.Answers.{AreOf};

use crate::reading::read;
use crate::requests::MOST;
use row_answers::say_halt;
use row_words::Line;
use vdm_kinds::{Halt, Part, SpecFault, SpecKind};
use vdm_lexer::{Lexeme, lex};
use vdm_names::Names;

/// Says what each front of the text that stands next is.
pub(crate) fn say_cuts(line: &mut Line<'_>) {
    let kind = line.word();
    let text = line.bytes();
    match lex(line.alloc(), Part::Spec, &text) {
        Ok(lexemes) => say_fronts(line, kind, &text, &lexemes),
        Err(halt) => say_halt(line, halt),
    }
}

// The front before each lexeme; the last one is the end.
fn say_fronts(line: &mut Line<'_>, kind: &str, text: &[u8], lexemes: &[Lexeme]) {
    let mut end = 0;
    for lexeme in lexemes {
        say_front(line, kind, front_of(text, end));
        end = lexeme.end;
    }
}

fn front_of(text: &[u8], length: usize) -> &[u8] {
    if length < text.len() {
        &text[..length]
    } else {
        text
    }
}

fn say_front(line: &mut Line<'_>, kind: &str, front: &[u8]) {
    match lex(line.alloc(), Part::Spec, front) {
        Ok(lexemes) if !lexemes.is_empty() => say_lexed(line, kind, front, &lexemes),
        Ok(_) | Err(Halt::Of(_)) => line.say("x"),
        Err(Halt::OutOfMemory) => line.fall_short(),
    }
}

fn say_lexed(line: &mut Line<'_>, kind: &str, front: &[u8], lexemes: &[Lexeme])
    requires lexemes { AreOf front.now lexemes.now }
    requires some { 0 < length lexemes.now }
{
    match Names::new(line.alloc()) {
        Ok(mut names) if names.len() < MOST => { say_read(line, kind, front, lexemes, &mut names) }
        Ok(_) => line.refuse(),
        Err(_) => line.fall_short(),
    }
}

fn say_read(line: &mut Line<'_>, kind: &str, front: &[u8], lexemes: &[Lexeme], names: &mut Names)
    requires lexemes { AreOf front.now lexemes.now }
    requires some { 0 < length lexemes.now }
    requires names { length names.old < 2 ^ 31 }
{
    match read(line.alloc(), kind, front, lexemes, names) {
        Ok(next) => line.say(if next == lexemes.len() - 1 { "w" } else { "x" }),
        Err(Halt::Of(fault)) => line.say(if is_at_end(fault, lexemes) { "." } else { "x" }),
        Err(Halt::OutOfMemory) => line.fall_short(),
    }
}

fn is_at_end(fault: SpecFault, lexemes: &[Lexeme]) -> bool {
    match lexemes.last() {
        Some(end) => fault.kind == SpecKind::SyntaxFault && fault.place == end.place,
        None => false,
    }
}
