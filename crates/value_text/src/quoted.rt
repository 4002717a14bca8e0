// Characters between quote signs.

ghost use Rattle.std.specs.Prelude.{◌≡◌, ◌<◌, ◌∷◌, ◌++◌, ◌==◌, ◌||◌, [], nat_lt, OnOk};
ghost use Rattle.std.specs.Char.{digit_char};
ghost use Rattle.std.specs.String.{string_bytes};
ghost use Rattle.report_texts.specs.Quoted.{code_text, escaped, character_text};

use vdm_kinds::OutOfMemory;

/// Appends a character as it is written alone, as `'a'`.
pub(crate) fn push_character(text: &mut String, c: char) -> Result<(), OutOfMemory>
    ensures { OnOk result (string_bytes text.new ≡ string_bytes text.old ++ character_text c) }
{
    text.push_str("'")?;
    push_escaped(text, '\'', c)?;
    Ok(text.push_str("'")?)
}

/// Appends a character as it stands between two such signs.
pub(crate) fn push_escaped(text: &mut String, sign: char, c: char) -> Result<(), OutOfMemory>
    ensures { OnOk result (string_bytes text.new ≡ string_bytes text.old ++ escaped sign c) }
{
    if c == '\\' {
        Ok(text.push_str("\\\\")?)
    } else if c == sign {
        text.push_str("\\")?;
        Ok(text.push(sign)?)
    } else if c == '\n' {
        Ok(text.push_str("\\n")?)
    } else if c == '\r' {
        Ok(text.push_str("\\r")?)
    } else if c == '\t' {
        Ok(text.push_str("\\t")?)
    } else if is_control(c) {
        push_code(text, c)
    } else {
        Ok(text.push(c)?)
    }
}

fn is_control(c: char) -> bool
    ensures { result ≡ (nat_lt c 32 || c == 127) }
{
    (c as u32) < 32 || c as u32 == 127
}

// as `\x1f`
fn push_code(text: &mut String, c: char) -> Result<(), OutOfMemory>
    requires { c < 128 }
    ensures { OnOk result (string_bytes text.new ≡ string_bytes text.old ++ code_text c) }
{
    text.push_str("\\x")?;
    push_digit(text, c as u32 / 16)?;
    push_digit(text, c as u32 % 16)
}

// a hexadecimal digit
fn push_digit(text: &mut String, digit: u32) -> Result<(), OutOfMemory>
    requires { digit < 16 }
    ensures { OnOk result (string_bytes text.new ≡ string_bytes text.old ++ digit_char digit ∷ []) }
{
    match char::from_digit(digit, 16) {
        Some(c) => Ok(text.push(c)?),
        None => unreachable!(),
    }
}
