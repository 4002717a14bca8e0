// `type PART TEXT`, `pattern PART TEXT`, `expression PART TEXT`: the tree that a text begins with, the number of the lexeme
// behind it and the names that it has, or the fault.

ghost use Rattle.std.specs.Prelude.{◌<◌, ◌^◌, length};
ghost use Rattle.text_answers.specs.Answers.{AreOf};

use expr_grammar::{expr_of_tokens, pattern_of_tokens, type_of_tokens};
use row_answers::{say_behind, say_halt};
use row_notation::{say_expr, say_pattern, say_type};
use row_words::Line;
use vdm_lexer::{Lexeme, lex};
use vdm_names::Names;

/// More names than any row has.
const MOST: usize = 1_000_000;

/// Answers a request; tells whether the word is one of this library's.
pub fn answer(names: &mut Names, line: &mut Line<'_>, word: &str) -> bool {
    match word {
        "type" | "pattern" | "expression" => answer_text(names, line, word),
        _ => return false,
    }
    true
}

fn answer_text(names: &mut Names, line: &mut Line<'_>, word: &str) {
    let part = line.part();
    let text = line.bytes();
    match lex(line.alloc(), part, &text) {
        Ok(lexemes) if !lexemes.is_empty() && names.len() < MOST => {
            answer_lexemes(names, line, word, &text, &lexemes)
        }
        Ok(_) => line.refuse(),
        Err(halt) => say_halt(line, halt),
    }
}

fn answer_lexemes(
    names: &mut Names,
    line: &mut Line<'_>,
    word: &str,
    text: &[u8],
    lexemes: &[Lexeme],
)
    requires lexemes { AreOf text.now lexemes.now }
    requires some { 0 < length lexemes.now }
    requires names { length names.old < 2 ^ 31 }
{
    match word {
        "type" => answer_type(names, line, text, lexemes),
        "pattern" => answer_pattern(names, line, text, lexemes),
        _ => answer_expr(names, line, text, lexemes),
    }
}

fn answer_type(names: &mut Names, line: &mut Line<'_>, text: &[u8], lexemes: &[Lexeme])
    requires lexemes { AreOf text.now lexemes.now }
    requires some { 0 < length lexemes.now }
    requires names { length names.old < 2 ^ 31 }
{
    match type_of_tokens(line.alloc(), text, lexemes, 0, names) {
        Ok((tree, next)) => {
            say_type(line, names, &tree);
            say_behind(line, names, next);
        }
        Err(halt) => say_halt(line, halt),
    }
}

fn answer_pattern(names: &mut Names, line: &mut Line<'_>, text: &[u8], lexemes: &[Lexeme])
    requires lexemes { AreOf text.now lexemes.now }
    requires some { 0 < length lexemes.now }
    requires names { length names.old < 2 ^ 31 }
{
    match pattern_of_tokens(line.alloc(), text, lexemes, 0, names) {
        Ok((tree, next)) => {
            say_pattern(line, names, &tree);
            say_behind(line, names, next);
        }
        Err(halt) => say_halt(line, halt),
    }
}

fn answer_expr(names: &mut Names, line: &mut Line<'_>, text: &[u8], lexemes: &[Lexeme])
    requires lexemes { AreOf text.now lexemes.now }
    requires some { 0 < length lexemes.now }
    requires names { length names.old < 2 ^ 31 }
{
    match expr_of_tokens(line.alloc(), text, lexemes, 0, names) {
        Ok((tree, next)) => {
            say_expr(line, names, &tree);
            say_behind(line, names, next);
        }
        Err(halt) => say_halt(line, halt),
    }
}
