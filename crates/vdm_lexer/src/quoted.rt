// What stands between signs of its own: strings, characters, quotes.

ghost use Rattle.std.specs.Prelude.{◌≡◌, ◌==◌, ◌&&◌, not, ◌<◌, ◌^◌, length, IfSome};
ghost use Rattle.std.specs.Option.{is_some};
ghost use Rattle.vdm_lexer.specs.Escapes.{escape_length};
ghost use Rattle.vdm_lexer.specs.Quoted.{close_of, escapes, refused_in, string_front, character_front, closed_character, refused_character, quote_length};

use crate::character::is_letter;
use crate::escape::escape_length;
use crate::front::Front;
use crate::lexeme::LexKind;
use crate::piece::{behind, first, taken, word_length};
use vdm_kinds::SpecKind;

/// A string, of what stands behind its opening sign.
pub fn string_front(text: &[char]) -> Front
    requires { length text.now < 2 ^ 32 }
    ensures { result ≡ string_front text.now }
{
    let Some(inside) = close_of('"', text) else {
        return Front::Fault(SpecKind::LexFault, 0);
    };
    match refused_in(taken(text, inside)) {
        None => Front::Token(LexKind::Text, inside + 1),
        Some(refused) => Front::Fault(SpecKind::LexFault, refused + 1),
    }
}

/// A character, of what stands behind its opening sign.
pub fn character_front(text: &[char]) -> Front
    ensures { result ≡ character_front text.now }
{
    if first(text) != '\\' {
        return closed_character(1, text);
    }
    match escape_length(behind(text, 1)) {
        Some(length) => closed_character(length + 1, text),
        None => refused_character(text),
    }
}

/// A character of so many characters between its signs, of what stands behind the opening one.
fn closed_character(inside: usize, text: &[char]) -> Front
    requires { inside < 2 ^ 32 }
    ensures { result ≡ closed_character inside text.now }
{
    if first(behind(text, inside)) == '\'' {
        Front::Token(LexKind::Character, inside + 1)
    } else {
        Front::Fault(SpecKind::LexFault, 0)
    }
}

/// The fault of a character with an escape that is refused.
fn refused_character(text: &[char]) -> Front
    ensures { result ≡ refused_character (close_of 39 text.now) }
{
    match close_of('\'', text) {
        None => Front::Fault(SpecKind::LexFault, 0),
        Some(_) => Front::Fault(SpecKind::LexFault, 1),
    }
}

/// How many characters stand before the closing sign.
fn close_of(sign: char, text: &[char]) -> Option<usize>
    ensures close { result ≡ close_of sign text.now }
    ensures within { IfSome result (λ n. n < length text.now) }
{
    let mut escaped = false;
    for (i, c) in text.iter().enumerate() {
        if closes(escaped, *c, sign) {
            return Some(i);
        }
        escaped = escapes(escaped, *c);
    }
    None
}

/// How many characters stand before the first `\` that begins no escape.
fn refused_in(text: &[char]) -> Option<usize>
    ensures refused { result ≡ refused_in text.now }
    ensures within { IfSome result (λ n. n < length text.now) }
{
    let mut escaped = false;
    for (i, c) in text.iter().enumerate() {
        escaped = escapes(escaped, *c);
        if is_refused(escaped, behind(text, i + 1)) {
            return Some(i);
        }
    }
    None
}

/// Whether a character closes what a sign opened.
fn closes(escaped: bool, c: char, sign: char) -> bool
    ensures { result ≡ (not escaped && c == sign) }
{
    !escaped && c == sign
}

/// Whether the next character stands behind a `\`.
fn escapes(escaped: bool, c: char) -> bool
    ensures { result ≡ escapes escaped c }
{
    !escaped && c == '\\'
}

/// Whether a text, behind a `\` or not, makes no escape with it.
fn is_refused(escaped: bool, text: &[char]) -> bool
    ensures { result ≡ (escaped && not (is_some (escape_length text.now))) }
{
    escaped && escape_length(text).is_none()
}

/// How many characters a quote has behind its `<`: an identifier and `>`.
pub fn quote_length(text: &[char]) -> Option<usize>
    requires { length text.now < 2 ^ 32 }
    ensures { result ≡ quote_length text.now }
{
    let length = word_length(text);
    if is_letter(first(text)) && first(behind(text, length)) == '>' {
        Some(length + 1)
    } else {
        None
    }
}
