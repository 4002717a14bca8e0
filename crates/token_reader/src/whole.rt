// Whole literals.

ghost use Rattle.std.specs.Prelude.{◌≡◌, ◌<◌, ◌≤◌, ◌^◌, pos};
ghost use Rattle.std.specs.Str.Parse.{digits_value as value_of_digits};
ghost use Rattle.token_reader.specs.Values.{is_hexadecimal, whole_value};

use crate::characters::{behind, first};
use vdm_lexer::digits_value;

/// The value of a whole literal.
pub fn whole_value(piece: &[char]) -> i128
    requires { whole_value piece.now < 2 ^ 127 }
    ensures { result ≡ pos (whole_value piece.now) }
{
    if is_hexadecimal(piece) {
        small_value(16, behind(piece, 2))
    } else {
        small_value(10, piece)
    }
}

/// Whether a literal begins with `0x`.
fn is_hexadecimal(piece: &[char]) -> bool
    ensures { result ≡ is_hexadecimal piece.now }
{
    first(piece) == '0' && first(behind(piece, 1)) == 'x'
}

/// The value of digits.
fn small_value(base: u32, digits: &[char]) -> i128
    requires base { 1 ≤ base }
    requires small { value_of_digits base digits.now < 2 ^ 127 }
    ensures { result ≡ pos (value_of_digits base digits.now) }
{
    match digits_value(base, digits) {
        Some(value) => value as i128,
        None => unreachable!(),
    }
}
