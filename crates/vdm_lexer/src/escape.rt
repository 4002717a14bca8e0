// Escapes.

ghost use Rattle.std.specs.Prelude.{◌≡◌, ◌≤◌, IfSome};
ghost use Rattle.vdm_lexer.specs.Escapes.{escape_length, is_plain_escape, are_two, are_four, is_scalar};

use crate::numeral::digits_value;
use crate::piece::{behind, first, hexadecimal_length, taken};

/// How many characters behind a `\` make an escape with it.
pub fn escape_length(text: &[char]) -> Option<usize>
    ensures length { result ≡ escape_length text.now }
    ensures most { IfSome result (λ n. n ≤ 5) }
{
    let c = first(text);
    if is_plain_escape(c) {
        Some(1)
    } else if c == 'x' && are_two(behind(text, 1)) {
        Some(3)
    } else if c == 'u' && are_four(behind(text, 1)) && is_scalar(taken(behind(text, 1), 4)) {
        Some(5)
    } else {
        None
    }
}

/// Whether a character makes an escape alone.
fn is_plain_escape(c: char) -> bool
    ensures { result ≡ is_plain_escape c }
{
    c == '\\'
        || c == '"'
        || c == '\''
        || c == 'n'
        || c == 'r'
        || c == 't'
        || c == 'f'
        || c == 'e'
        || c == 'a'
}

/// Whether a text begins with two hexadecimal digits.
fn are_two(text: &[char]) -> bool
    ensures { result ≡ are_two text.now }
{
    hexadecimal_length(taken(text, 2)) == 2
}

/// Whether a text begins with four hexadecimal digits.
fn are_four(text: &[char]) -> bool
    ensures { result ≡ are_four text.now }
{
    hexadecimal_length(taken(text, 4)) == 4
}

/// Whether four digits give a character.
fn is_scalar(digits: &[char]) -> bool
    ensures { result ≡ is_scalar digits.now }
{
    match digits_value(16, digits) {
        Some(value) => value < 0xd800 || value > 0xdfff,
        // Greater than any that is none.
        None => true,
    }
}
