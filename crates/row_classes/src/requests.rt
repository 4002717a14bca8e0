// `statement PART TEXT`: the statement that a text begins with, the number of the lexeme behind it and the names that it has, or
// the fault. `specification TEXT`: the specification that a text is as a whole, and its names, or the fault. `classes TEXT`:
// how many classes it has. `cuts KIND TEXT`: in `cuts.rt`.

ghost use Rattle.std.specs.Prelude.{◌<◌, ◌^◌, length};
ghost use Rattle.text_answers.specs.Answers.{AreOf};

use crate::cuts::say_cuts;
use class_grammar::spec_of_tokens;
use row_answers::{say_behind, say_halt, say_own_names};
use row_class_notation::say_spec;
use row_stmt_notation::say_stmt;
use row_words::Line;
use stmt_grammar::stmt_of_tokens;
use vdm_kinds::Part;
use vdm_lexer::{Lexeme, lex};
use vdm_names::Names;

/// More names than any row has.
pub(crate) const MOST: usize = 1_000_000;

/// Answers a request; tells whether the word is one of this library's.
pub fn answer(names: &mut Names, line: &mut Line<'_>, word: &str) -> bool {
    match word {
        "statement" => answer_in(names, line, word),
        "specification" | "classes" => answer_text(names, line, word, Part::Spec),
        "cuts" => say_cuts(line),
        _ => return false,
    }
    true
}

fn answer_in(names: &mut Names, line: &mut Line<'_>, word: &str) {
    let part = line.part();
    answer_text(names, line, word, part);
}

fn answer_text(names: &mut Names, line: &mut Line<'_>, word: &str, part: Part) {
    let text = line.bytes();
    match lex(line.alloc(), part, &text) {
        Ok(lexemes) if !lexemes.is_empty() && names.len() < MOST => {
            answer_lexemes(names, line, word, &text, &lexemes)
        }
        Ok(_) => line.refuse(),
        Err(halt) => say_halt(line, halt),
    }
}

fn answer_lexemes(
    names: &mut Names,
    line: &mut Line<'_>,
    word: &str,
    text: &[u8],
    lexemes: &[Lexeme],
)
    requires lexemes { AreOf text.now lexemes.now }
    requires some { 0 < length lexemes.now }
    requires names { length names.old < 2 ^ 31 }
{
    match word {
        "statement" => answer_stmt(names, line, text, lexemes),
        "classes" => answer_count(names, line, text, lexemes),
        _ => answer_spec(names, line, text, lexemes),
    }
}

fn answer_stmt(names: &mut Names, line: &mut Line<'_>, text: &[u8], lexemes: &[Lexeme])
    requires lexemes { AreOf text.now lexemes.now }
    requires some { 0 < length lexemes.now }
    requires names { length names.old < 2 ^ 31 }
{
    match stmt_of_tokens(line.alloc(), text, lexemes, 0, names) {
        Ok((tree, next)) => {
            say_stmt(line, names, &tree);
            say_behind(line, names, next);
        }
        Err(halt) => say_halt(line, halt),
    }
}

fn answer_spec(names: &mut Names, line: &mut Line<'_>, text: &[u8], lexemes: &[Lexeme])
    requires lexemes { AreOf text.now lexemes.now }
    requires names { length names.old < 2 ^ 31 }
{
    match spec_of_tokens(line.alloc(), text, lexemes, names) {
        Ok(spec) => {
            say_spec(line, names, &spec);
            say_own_names(line, names);
        }
        Err(halt) => say_halt(line, halt),
    }
}

fn answer_count(names: &mut Names, line: &mut Line<'_>, text: &[u8], lexemes: &[Lexeme])
    requires lexemes { AreOf text.now lexemes.now }
    requires names { length names.old < 2 ^ 31 }
{
    match spec_of_tokens(line.alloc(), text, lexemes, names) {
        Ok(spec) => line.say_count(spec.classes.len()),
        Err(halt) => say_halt(line, halt),
    }
}
