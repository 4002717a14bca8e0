// What characters of literals stand for.

ghost use Rattle.std.specs.Prelude.{◌≡◌, IfOk, Option, Some, nat_lt, ◌^◌, if◌then◌else◌};
ghost use Rattle.std.specs.Str.Parse.{digits_value as value_of_digits};
ghost use Rattle.token_reader.specs.Values.{character_of, escape_length, plain_value, escape_value, decoded_behind};

use crate::characters::{behind, first, taken};
use std::alloc::{AllocError, Global};
use vdm_lexer::digits_value;

/// The characters that a text stands for.
pub fn decoded(alloc: Global, text: &[char]) -> Result<Vec<char>, AllocError>
    ensures { IfOk result (λ found. found.items ≡ decoded_behind 0 text.now) }
{
    let mut found = Vec::new(alloc);
    // How many characters of the last escape are still to come.
    let mut skipped = 0;
    for (i, c) in text.iter().enumerate() {
        if skipped > 0 {
            skipped -= 1;
        } else if *c == '\\' {
            let escape = behind(text, i + 1);
            found.push(escape_value(escape))?;
            skipped = escape_length(first(escape));
        } else {
            found.push(*c)?;
        }
    }
    Ok(found)
}

/// How many characters behind a `\` belong to it, by the first.
fn escape_length(c: char) -> usize
    ensures { result ≡ escape_length c }
{
    match c {
        'x' => 3,
        'u' => 5,
        _ => 1,
    }
}

/// What a `\` and these characters behind it stand for.
fn escape_value(text: &[char]) -> char
    ensures { result ≡ escape_value text.now }
{
    match first(text) {
        'x' => numbered(taken(behind(text, 1), 2)),
        'u' => numbered(taken(behind(text, 1), 4)),
        c => plain_value(c),
    }
}

/// What a `\` and one character stand for.
fn plain_value(c: char) -> char
    ensures { result ≡ plain_value c }
{
    match c {
        'n' => '\n',
        'r' => '\r',
        't' => '\t',
        'f' => '\u{c}',
        'e' => '\u{1b}',
        'a' => '\u{7}',
        _ => c,
    }
}

/// The character whose number the digits give.
fn numbered(digits: &[char]) -> char
    ensures { result ≡ character_of (value_of_digits 16 digits.now) }
{
    match digits_value(16, digits) {
        Some(value) => character_of(value),
        None => char::REPLACEMENT_CHARACTER,
    }
}

/// The character with a number.
fn character_of(value: u128) -> char
    ensures { result ≡ character_of value }
{
    if value < 0x110000 {
        char::from_u32(value as u32).unwrap_or(char::REPLACEMENT_CHARACTER)
    } else {
        char::REPLACEMENT_CHARACTER
    }
}
