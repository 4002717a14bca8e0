// A text in lexemes.

ghost use Rattle.std.specs.Prelude.{◌≡◌, ◌+◌, ◌*◌, ◌<◌, ◌≤◌, ◌^◌, ◌==◌, length, Ok, Err, IfOk};
ghost use Rattle.vdm_kinds.specs.declared.spec_fault.SpecFault.{SpecFault};
ghost use Rattle.vdm_lexer.specs.Fronts.{front_of, front_within};
ghost use Rattle.vdm_lexer.specs.Lexed.{IsPushed, IsRefused};
ghost use Rattle.vdm_lexer.specs.Lexemes.{lexeme_at, piece_bytes, lexemes, lexemes_of, lexemes_behind, mark_length, limit_of};

use crate::decoded::decode;
use crate::front::{Front, front_of, front_within};
use crate::lexeme::{LexKind, Lexeme};
use crate::piece::{behind, first, taken};
use crate::spot::{Spot, after_all, bytes_of, spot_after, start_of};
use std::alloc::Global;
use vdm_kinds::{Halt, Part, SpecFault, SpecKind};

/// The lexemes of a text, of which the last is its end; or its first fault.
pub fn lex(alloc: Global, part: Part, text: &[u8]) -> Result<Vec<Lexeme>, Halt<SpecFault>>
    ensures lexemes { IfOk result (λ found. lexemes part text.now ≡ Ok found.items) }
    ensures refused { (fault : SpecFault) → result ≡ Err (Halt.Of fault) → lexemes part text.now ≡ Err fault }
{
    if text.len() > limit_of(part) {
        return Err(Halt::Of(SpecFault {
            kind: SpecKind::TooLong,
            place: start_of(part),
        }));
    }
    let found = decode(alloc, text)?;
    lexemes_of(alloc, part, found.good, &found.characters)
}

/// How many bytes a text may have.
fn limit_of(part: Part) -> usize
    ensures limit { result ≡ limit_of part }
    ensures most { result ≤ 4_194_304 }
{
    match part {
        Part::Spec => 4_194_304,
        Part::Expr => 65_536,
    }
}

/// The lexemes of the characters of a text, of which so many stand before the first byte that is not UTF-8.
fn lexemes_of(
    alloc: Global,
    part: Part,
    good: usize,
    text: &[char],
) -> Result<Vec<Lexeme>, Halt<SpecFault>>
    requires { length text.now ≤ 4_194_304 }
    ensures lexemes { IfOk result (λ found. lexemes_of part good text.now ≡ Ok found.items) }
    ensures refused { (fault : SpecFault) → result ≡ Err (Halt.Of fault) → lexemes_of part good text.now ≡ Err fault }
{
    let mark = mark_length(text);
    let spot = Spot {
        offset: 3 * mark,
        place: start_of(part),
    };
    lexemes_from(alloc, good.saturating_sub(mark), spot, behind(text, mark))
}

/// How many characters are skipped before a text: a byte-order mark.
fn mark_length(text: &[char]) -> usize
    ensures mark { result ≡ mark_length text.now }
    ensures most { result ≤ 1 }
{
    if first(text) == '\u{feff}' { 1 } else { 0 }
}

/// The lexemes of a text that begins at a spot, where so many characters are good.
fn lexemes_from(
    alloc: Global,
    good: usize,
    start: Spot,
    text: &[char],
) -> Result<Vec<Lexeme>, Halt<SpecFault>>
    requires length { length text.now ≤ 4_194_304 }
    requires offset { start.offset ≤ 3 }
    requires line { start.place.line ≤ 1 }
    requires column { start.place.column ≤ 1 }
    ensures lexemes { IfOk result (λ found. lexemes_behind good start 0 text.now ≡ Ok found.items) }
    ensures refused { (fault : SpecFault) → result ≡ Err (Halt.Of fault) → lexemes_behind good start 0 text.now ≡ Err fault }
{
    let mut lexemes = Vec::new(alloc);
    let mut spot = start;
    let mut good = good;
    // How many characters of the last token or comment are still to come.
    let mut skipped = 0;
    for (i, c) in text.iter().enumerate() {
        if skipped > 0 {
            skipped -= 1;
        } else {
            skipped = push_front(&mut lexemes, good, spot, behind(text, i))?;
        }
        spot = spot_after(spot, *c);
        good = good.saturating_sub(1);
    }
    lexemes.push(lexeme_at(LexKind::End, spot, 0))?;
    Ok(lexemes)
}

/// Adds the token that a text begins with, if it is one, and gives how many characters stand behind the first of what
/// the text begins with.
fn push_front(
    lexemes: &mut Vec<Lexeme>,
    good: usize,
    spot: Spot,
    text: &[char],
) -> Result<usize, Halt<SpecFault>>
    requires some { 0 < length text.now }
    requires length { length text.now ≤ 4_194_304 }
    requires offset { spot.offset ≤ 4 * 4_194_304 + 3 }
    requires line { spot.place.line ≤ 4_194_304 }
    requires column { spot.place.column ≤ 4_194_304 }
    ensures pushed { IfOk result (λ more. IsPushed (front_within good (front_of text.now)) spot text.now lexemes.old.items lexemes.new.items more) }
    ensures refused { (fault : SpecFault) → result ≡ Err (Halt.Of fault) → IsRefused (front_within good (front_of text.now)) spot text.now fault }
{
    match front_within(good, front_of(text)) {
        Front::Space(more) => Ok(more),
        Front::Token(kind, more) => {
            lexemes.push(lexeme_at(kind, spot, piece_bytes(text, more)))?;
            Ok(more)
        }
        Front::Fault(kind, n) => Err(Halt::Of(SpecFault {
            kind,
            place: after_all(spot.place, taken(text, n)),
        })),
    }
}

/// How many bytes the first character of a text and so many more have.
fn piece_bytes(text: &[char], more: usize) -> usize
    requires { length text.now < 2 ^ 32 }
    ensures bytes { result ≡ piece_bytes text.now more }
    ensures most { result ≤ 8 * length text.now }
{
    bytes_of(taken(text, 1)) + bytes_of(taken(behind(text, 1), more))
}

/// A lexeme of so many bytes at a spot.
fn lexeme_at(kind: LexKind, spot: Spot, bytes: usize) -> Lexeme
    requires bytes { bytes < 2 ^ 36 }
    requires offset { spot.offset < 2 ^ 32 }
    ensures { result ≡ lexeme_at kind spot bytes }
{
    Lexeme {
        kind,
        start: spot.offset,
        end: spot.offset + bytes,
        place: spot.place,
    }
}
