// Numerals.

ghost use Rattle.std.specs.Prelude.{◌≡◌, ◌<◌, ◌≤◌, ◌^◌, ◌+◌, ◌*◌, nat_lt, length, Some, None, if◌then◌else◌};
ghost use Rattle.std.specs.Char.{digit_value as char_value};
ghost use Rattle.std.specs.Str.Parse.{digits_value as value_of_digits};
ghost use Rattle.vdm_lexer.specs.Numerals.{is_small, whole_token, hexadecimal_front, is_fraction, is_signed_digit, is_exponent, decimal_front, is_hexadecimal_literal, numeral_front};

use crate::character::{is_decimal, is_hexadecimal};
use crate::front::Front;
use crate::lexeme::LexKind;
use crate::piece::{begins, behind, decimal_length, first, hexadecimal_length, taken};
use vdm_kinds::SpecKind;

/// The literal that a text begins with, where its first character is a decimal digit.
pub fn numeral_front(text: &[char]) -> Front
    requires { length text.now < 2 ^ 32 }
    ensures { result ≡ numeral_front text.now }
{
    if is_hexadecimal_literal(text) {
        let digits = behind(text, 2);
        hexadecimal_front(taken(digits, hexadecimal_length(digits)))
    } else {
        decimal_front(text, decimal_length(behind(text, 1)))
    }
}

/// Whether a text begins with `0x` and a hexadecimal digit.
fn is_hexadecimal_literal(text: &[char]) -> bool
    ensures { result ≡ is_hexadecimal_literal text.now }
{
    begins(text, b"0x") && is_hexadecimal(first(behind(text, 2)))
}

/// Hexadecimal digits behind `0x`.
fn hexadecimal_front(digits: &[char]) -> Front
    requires { length digits.now < 2 ^ 32 }
    ensures { result ≡ hexadecimal_front digits.now }
{
    whole_token(is_small(16, digits), digits.len() + 1)
}

/// Decimal digits that a text begins with, of which so many stand behind the first.
fn decimal_front(text: &[char], more: usize) -> Front
    requires { more < 2 ^ 32 }
    ensures { result ≡ decimal_front text.now more }
{
    let rest = behind(text, more + 1);
    if is_fraction(rest) || is_exponent(rest) {
        Front::Fault(SpecKind::LeftOut, 0)
    } else {
        whole_token(is_small(10, taken(text, more + 1)), more)
    }
}

/// A whole literal; one that is too great is left out.
fn whole_token(small: bool, more: usize) -> Front
    ensures { result ≡ whole_token small more }
{
    if small {
        Front::Token(LexKind::Whole, more)
    } else {
        Front::Fault(SpecKind::LeftOut, 0)
    }
}

/// Whether a text goes on from digits as a fraction.
fn is_fraction(text: &[char]) -> bool
    ensures { result ≡ is_fraction text.now }
{
    first(text) == '.' && is_decimal(first(behind(text, 1)))
}

/// Whether a text goes on from digits as an exponent.
fn is_exponent(text: &[char]) -> bool
    ensures { result ≡ is_exponent text.now }
{
    (first(text) == 'e' || first(text) == 'E') && is_signed_digit(behind(text, 1))
}

/// Whether a text begins with a digit, behind a sign or not.
fn is_signed_digit(text: &[char]) -> bool
    ensures { result ≡ is_signed_digit text.now }
{
    is_decimal(first(text))
        || ((first(text) == '+' || first(text) == '-') && is_decimal(first(behind(text, 1))))
}

/// Whether digits stand for at most 2^127 - 1.
fn is_small(base: u32, digits: &[char]) -> bool
    requires { 1 ≤ base }
    ensures { result ≡ is_small base digits.now }
{
    digits_value(base, digits).is_some()
}

/// What digits stand for, up to 2^127 - 1.
pub fn digits_value(base: u32, digits: &[char]) -> Option<u128>
    requires { 1 ≤ base }
    ensures { result ≡ if is_small base digits.now then Some (value_of_digits base digits.now) else None }
{
    let mut value: u128 = 0;
    for c in digits {
        let Some(longer) = with_digit(value, base, digit_value(*c)) else {
            return None;
        };
        value = longer;
    }
    Some(value)
}

/// A number with one digit more, up to 2^127 - 1.
fn with_digit(value: u128, base: u32, digit: u32) -> Option<u128>
    ensures { result ≡ if nat_lt (value * base + digit) (2 ^ 127) then Some (value * base + digit) else None }
{
    let longer = value
        .checked_mul(u128::from(base))?
        .checked_add(u128::from(digit))?;
    if longer < 1 << 127 {
        Some(longer)
    } else {
        None
    }
}

/// What a digit stands for, or 36 for any other character.
fn digit_value(c: char) -> u32
    ensures value { result ≡ char_value c }
    ensures most { result ≤ 36 }
{
    let code = c as u32;
    match c {
        '0'..='9' => code - 48,
        'A'..='Z' => code - 55,
        'a'..='z' => code - 87,
        _ => 36,
    }
}
