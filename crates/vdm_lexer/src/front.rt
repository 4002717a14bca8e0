// What a text begins with.

ghost use Rattle.std.specs.Prelude.{◌≡◌, ◌<◌, ◌^◌, length, drop};
ghost use Rattle.vdm_lexer.specs.Quoted.{quote_length};
ghost use Rattle.vdm_lexer.specs.Fronts.{front_of, token_front, quote_or_sign, reach, front_within};

use crate::character::{is_blank, is_decimal, is_letter};
use crate::comment::{block_comment, line_comment};
use crate::lexeme::LexKind;
use crate::numeral::numeral_front;
use crate::piece::{begins, behind, first};
use crate::quoted::{character_front, quote_length, string_front};
use crate::sign::sign_front;
use crate::word::word_front;
use vdm_kinds::SpecKind;

/// What a text begins with. The numbers are of characters.
#[derive(Clone, Copy)]
pub enum Front {
    /// White space or a comment, and how much of it stands behind its first character.
    Space(usize),
    /// A token, and how much of it stands behind its first character.
    Token(LexKind, usize),
    /// A fault, and how much stands before it.
    Fault(SpecKind, usize),
}

/// White space or a comment, a token, or a fault that a text begins with.
pub fn front_of(text: &[char]) -> Front
    requires { length text.now < 2 ^ 32 }
    ensures { result ≡ front_of text.now }
{
    if is_blank(first(text)) {
        Front::Space(0)
    } else if begins(text, b"--") {
        line_comment(behind(text, 1))
    } else if begins(text, b"/*") {
        block_comment(behind(text, 2))
    } else {
        token_front(text)
    }
}

/// A token of a text by its first character, where neither white space nor a comment stands there.
fn token_front(text: &[char]) -> Front
    requires { length text.now < 2 ^ 32 }
    ensures { result ≡ token_front text.now }
{
    let c = first(text);
    if is_letter(c) {
        word_front(text)
    } else if is_decimal(c) {
        numeral_front(text)
    } else if c == '\'' {
        character_front(behind(text, 1))
    } else if c == '"' {
        string_front(behind(text, 1))
    } else if c == '<' {
        quote_or_sign(text)
    } else if begins(text, b"\\begin{") {
        Front::Fault(SpecKind::LexFault, 0)
    } else {
        sign_front(text)
    }
}

/// A quote, or else a sign.
fn quote_or_sign(text: &[char]) -> Front
    requires { length text.now < 2 ^ 32 }
    ensures { result ≡ quote_or_sign (quote_length (drop 1 text.now)) text.now }
{
    match quote_length(behind(text, 1)) {
        Some(more) => Front::Token(LexKind::Quote, more),
        None => sign_front(text),
    }
}

/// What a text begins with, of whose characters so many stand before the first byte that is not UTF-8: nothing reaches
/// that byte but a fault.
pub fn front_within(good: usize, front: Front) -> Front
    ensures { result ≡ front_within good front }
{
    if reach(front) < good {
        front
    } else {
        Front::Fault(SpecKind::LexFault, good)
    }
}

/// How many characters stand behind the first of what a text begins with, or before its fault.
fn reach(front: Front) -> usize
    ensures { result ≡ reach front }
{
    match front {
        Front::Space(more) => more,
        Front::Token(_, more) => more,
        Front::Fault(_, n) => n,
    }
}
