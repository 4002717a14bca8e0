// What a character may be part of.

ghost use Rattle.std.specs.Prelude.{◌≡◌};
ghost use Rattle.vdm_lexer.specs.Characters.{is_blank, is_of_line, is_decimal, is_hexadecimal, is_letter, is_of_word};

use unicode_ident::{is_xid_continue, is_xid_start};

/// Whether a character is white space.
pub fn is_blank(c: char) -> bool
    ensures { result ≡ is_blank c }
{
    c == ' ' || c == '\t' || c == '\n' || c == '\r'
}

/// Whether a line may hold a character.
pub fn is_of_line(c: char) -> bool
    ensures { result ≡ is_of_line c }
{
    !(c == '\n')
}

/// Whether a character is a decimal digit.
pub fn is_decimal(c: char) -> bool
    ensures { result ≡ is_decimal c }
{
    c.is_digit(10)
}

/// Whether a character is a hexadecimal digit.
pub fn is_hexadecimal(c: char) -> bool
    ensures { result ≡ is_hexadecimal c }
{
    c.is_digit(16)
}

/// Whether an identifier may begin with a character.
pub fn is_letter(c: char) -> bool
    ensures { result ≡ is_letter c }
{
    if (c as u32) < 128 {
        c.is_ascii_alphabetic()
    } else {
        is_xid_start(c)
    }
}

/// Whether a character may follow in an identifier.
pub fn is_of_word(c: char) -> bool
    ensures { result ≡ is_of_word c }
{
    if (c as u32) < 128 {
        c.is_ascii_alphanumeric() || c == '_' || c == '\''
    } else {
        is_xid_continue(c)
    }
}
