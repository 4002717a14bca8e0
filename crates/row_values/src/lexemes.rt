// `lex PART TEXT`: the lexemes of a text of the whole language, each a letter for its kind (Identifier, Whole, Character,
// Text, Quote, Reserved, Sign, End) and its bytes, or the fault. `places PART TEXT`: where they begin, as
// line:column:byte.

use row_words::Line;
use vdm_kinds::Halt;
use vdm_lexer::{LexKind, Lexeme, lex};

pub(crate) fn answer(line: &mut Line<'_>, word: &str) {
    let part = line.part();
    let text = line.bytes();
    match lex(line.alloc(), part, &text) {
        Ok(lexemes) => say_all(line, &lexemes, word == "lex"),
        Err(Halt::Of(fault)) => line.say_refusal(fault),
        Err(Halt::OutOfMemory) => line.fall_short(),
    }
}

fn say_all(line: &mut Line<'_>, lexemes: &[Lexeme], has_kinds: bool) {
    for (index, lexeme) in lexemes.iter().enumerate() {
        line.say_blank(index);
        if has_kinds {
            say_kind(line, lexeme);
        } else {
            say_beginning(line, lexeme);
        }
    }
}

fn say_kind(line: &mut Line<'_>, lexeme: &Lexeme) {
    line.say(letter_of(lexeme.kind));
    line.say_count(lexeme.end.saturating_sub(lexeme.start));
}

fn say_beginning(line: &mut Line<'_>, lexeme: &Lexeme) {
    line.say_number(u64::from(lexeme.place.line));
    line.say(":");
    line.say_number(u64::from(lexeme.place.column));
    line.say(":");
    line.say_count(lexeme.start);
}

fn letter_of(kind: LexKind) -> &'static str {
    match kind {
        LexKind::Identifier => "I",
        LexKind::Whole => "W",
        LexKind::Character => "C",
        LexKind::Text => "T",
        LexKind::Quote => "Q",
        LexKind::Reserved => "R",
        LexKind::Sign => "S",
        LexKind::End => "E",
    }
}
