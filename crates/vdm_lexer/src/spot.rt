// Where a character of a text stands.

ghost use Rattle.std.specs.Prelude.{◌≡◌, ◌+◌, ◌*◌, ◌^◌, ◌<◌, ◌≤◌, length};
ghost use Rattle.vdm_lexer.specs.Spots.{start_of, after, after_all, bytes_of, spot_after};

use vdm_kinds::{Part, Place};

/// How many bytes of the text stand before a character, and its place.
#[derive(Clone, Copy)]
pub struct Spot {
    pub offset: usize,
    pub place: Place,
}

/// The place of a text's first character.
pub fn start_of(part: Part) -> Place
    ensures { result ≡ start_of part }
{
    Place {
        part,
        line: 1,
        column: 1,
    }
}

/// The place after a character.
pub fn after(place: Place, c: char) -> Place
    requires line { place.line + 1 < 2 ^ 32 }
    requires column { place.column + 1 < 2 ^ 32 }
    ensures { result ≡ after place c }
{
    if c == '\n' {
        Place {
            line: place.line + 1,
            column: 1,
            ..place
        }
    } else {
        Place {
            column: place.column + 1,
            ..place
        }
    }
}

/// The place after characters.
pub fn after_all(place: Place, text: &[char]) -> Place
    requires line { place.line + length text.now < 2 ^ 32 }
    requires column { place.column + length text.now + 1 < 2 ^ 32 }
    ensures { result ≡ after_all place text.now }
{
    let mut place = place;
    for c in text {
        place = after(place, *c);
    }
    place
}

/// How many bytes characters have.
pub fn bytes_of(text: &[char]) -> usize
    requires { length text.now < 2 ^ 32 }
    ensures bytes { result ≡ bytes_of text.now }
    ensures most { result ≤ 4 * length text.now }
{
    let mut bytes = 0;
    for c in text {
        bytes += c.len_utf8();
    }
    bytes
}

/// The spot after a character.
pub fn spot_after(spot: Spot, c: char) -> Spot
    requires offset { spot.offset + 4 < 2 ^ 64 }
    requires line { spot.place.line + 1 < 2 ^ 32 }
    requires column { spot.place.column + 1 < 2 ^ 32 }
    ensures { result ≡ spot_after spot c }
{
    Spot {
        offset: spot.offset + c.len_utf8(),
        place: after(spot.place, c),
    }
}
