// The characters of bytes.

ghost use Rattle.std.specs.Prelude.{◌≡◌, ◌≤◌, ◌+◌, ◌++◌, IfOk, take, drop, map, length};
ghost use Rattle.std.specs.Str.{chars, IsUtf8};
ghost use Rattle.std.specs.Str.Lossy.{utf8_valid_len};
ghost use Rattle.vdm_lexer.specs.Decoded.{stand_in, characters, good};

use std::alloc::{AllocError, Global};

/// The characters of bytes.
#[derive(Drop)]
pub struct Decoded {
    /// From the first byte on that is not UTF-8, each byte is a character: of ASCII its own, any other U+FFFD.
    pub characters: Vec<char>,
    /// How many stand before the first byte that is not UTF-8.
    pub good: usize,
}

/// The characters of bytes.
pub fn decode(alloc: Global, text: &[u8]) -> Result<Decoded, AllocError>
    ensures characters { IfOk result (λ found. found.characters.items ≡ characters text.now) }
    ensures good { IfOk result (λ found. found.good ≡ good text.now) }
    ensures within { IfOk result (λ found. length found.characters.items ≤ length text.now) }
{
    let valid = valid_length(text);
    let mut characters = characters_of(alloc, &text[..valid])?;
    let good = characters.len();
    push_stand_ins(&mut characters, &text[valid..])?;
    Ok(Decoded { characters, good })
}

/// How many bytes stand before the first that is not UTF-8.
fn valid_length(text: &[u8]) -> usize
    ensures valid { result ≡ utf8_valid_len text.now }
    ensures within { result ≤ length text.now }
    ensures text { IsUtf8 (take result text.now) }
{
    match str::from_utf8(text) {
        Ok(_) => text.len(),
        Err(fault) => fault.valid_up_to(),
    }
}

/// The characters of bytes that are UTF-8.
fn characters_of(alloc: Global, text: &[u8]) -> Result<Vec<char>, AllocError>
    requires { IsUtf8 text.now }
    ensures characters { IfOk result (λ found. found.items ≡ chars text.now) }
    ensures within { IfOk result (λ found. length found.items ≤ length text.now) }
{
    match str::from_utf8(text) {
        Ok(text) => text.chars().collect(alloc),
        Err(_) => unreachable!(),
    }
}

/// Adds a character for each byte.
fn push_stand_ins(characters: &mut Vec<char>, bytes: &[u8]) -> Result<(), AllocError>
    ensures { IfOk result (λ _. characters.new.items ≡ characters.old.items ++ map stand_in bytes.now) }
{
    for b in bytes {
        characters.push(stand_in(*b))?;
    }
    Ok(())
}

/// What stands for a byte where the text is not UTF-8: only the signs of ASCII can close something there.
fn stand_in(b: u8) -> char
    ensures { result ≡ stand_in b }
{
    if b < 128 { char::from(b) } else { '\u{fffd}' }
}
