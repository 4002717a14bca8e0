// Pieces of a text.

ghost use Rattle.std.specs.Prelude.{◌≡◌, ◌≤◌, take, drop, length};
ghost use Rattle.std.specs.List.{prefix_len};
ghost use Rattle.vdm_lexer.specs.Characters.{is_of_line, is_decimal, is_hexadecimal, is_of_word};
ghost use Rattle.vdm_lexer.specs.Pieces.{first, begins, is_text};

use crate::character::{is_decimal, is_hexadecimal, is_of_line, is_of_word};

/// The first character of a text, or 0 where it is empty.
pub fn first(text: &[char]) -> char
    ensures { result ≡ first text.now }
{
    match text {
        [first, ..] => *first,
        [] => '\0',
    }
}

/// The first so many characters of a text, or all where it has fewer.
pub fn taken(text: &[char], n: usize) -> &[char]
    ensures taken { result.now ≡ take n text.now }
    ensures within { length result.now ≤ length text.now }
{
    if n < text.len() { &text[..n] } else { text }
}

/// What stands behind the first so many characters of a text.
pub fn behind(text: &[char], n: usize) -> &[char]
    ensures behind { result.now ≡ drop n text.now }
    ensures within { length result.now ≤ length text.now }
{
    if n < text.len() { &text[n..] } else { &[] }
}

/// Whether a text begins with another, of ASCII.
pub fn begins(text: &[char], other: &[u8]) -> bool
    ensures { result ≡ begins text.now other.now }
{
    for (i, b) in other.iter().enumerate() {
        if i >= text.len() {
            return false;
        }
        if text[i] != char::from(*b) {
            return false;
        }
    }
    true
}

/// Whether a text is another, of ASCII.
pub fn is_text(text: &[char], other: &[u8]) -> bool
    ensures { result ≡ is_text text.now other.now }
{
    text.len() == other.len() && begins(text, other)
}

/// How many characters that a line may hold a text begins with.
pub fn line_length(text: &[char]) -> usize
    ensures run { result ≡ prefix_len is_of_line text.now }
    ensures within { result ≤ length text.now }
{
    text.iter().take_while(|c| is_of_line(**c)).count()
}

/// How many characters of words a text begins with.
pub fn word_length(text: &[char]) -> usize
    ensures run { result ≡ prefix_len is_of_word text.now }
    ensures within { result ≤ length text.now }
{
    text.iter().take_while(|c| is_of_word(**c)).count()
}

/// How many decimal digits a text begins with.
pub fn decimal_length(text: &[char]) -> usize
    ensures run { result ≡ prefix_len is_decimal text.now }
    ensures within { result ≤ length text.now }
{
    text.iter().take_while(|c| is_decimal(**c)).count()
}

/// How many hexadecimal digits a text begins with.
pub fn hexadecimal_length(text: &[char]) -> usize
    ensures run { result ≡ prefix_len is_hexadecimal text.now }
    ensures within { result ≤ length text.now }
{
    text.iter().take_while(|c| is_hexadecimal(**c)).count()
}
