// The characters of a piece of a text.

ghost use Rattle.std.specs.Prelude.{◌≡◌, ◌++◌, ◌∷◌, [], take, drop, slice_index, IfOk, OnOk};
ghost use Rattle.std.specs.Str.{IsUtf8, chars, encode_utf8_all};
ghost use Rattle.std.specs.String.{string_bytes};
ghost use Rattle.vdm_lexer.specs.Pieces.{first};
ghost use Rattle.token_reader.specs.Values.{between};

use std::alloc::{AllocError, Global};

/// The characters of bytes that are UTF-8.
pub fn characters_of(alloc: Global, piece: &[u8]) -> Result<Vec<char>, AllocError>
    requires { IsUtf8 piece.now }
    ensures { IfOk result (λ found. found.items ≡ chars piece.now) }
{
    str_of(piece).chars().collect(alloc)
}

/// Bytes that are UTF-8, as a text.
pub fn str_of(piece: &[u8]) -> &str
    requires { IsUtf8 piece.now }
    ensures { result.now ≡ piece.now }
{
    match str::from_utf8(piece) {
        Ok(text) => text,
        Err(_) => unreachable!(),
    }
}

/// The text of characters.
pub fn string_of(alloc: Global, characters: &[char]) -> Result<String, AllocError>
    ensures { IfOk result (λ text. string_bytes text ≡ encode_utf8_all characters.now) }
{
    let mut text = String::new(alloc);
    for c in characters {
        text.push(*c)?;
    }
    Ok(text)
}

/// The first character of a text, or 0 where it is empty.
pub fn first(text: &[char]) -> char
    ensures { result ≡ first text.now }
{
    match text {
        [first, ..] => *first,
        [] => '\0',
    }
}

/// The first so many characters of a text, or all where it has fewer.
pub fn taken(text: &[char], n: usize) -> &[char]
    ensures { result.now ≡ take n text.now }
{
    if n < text.len() { &text[..n] } else { text }
}

/// What stands behind the first so many characters of a text.
pub fn behind(text: &[char], n: usize) -> &[char]
    ensures { result.now ≡ drop n text.now }
{
    if n < text.len() { &text[n..] } else { &[] }
}

/// What stands between the first and the last character.
pub fn between(piece: &[char]) -> &[char]
    ensures { result.now ≡ between piece.now }
{
    taken(behind(piece, 1), piece.len().saturating_sub(2))
}
