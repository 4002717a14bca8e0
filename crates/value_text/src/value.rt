// The text of a value, whole.

ghost use Rattle.std.specs.Prelude.{◌≡◌, ◌++◌, IfOk, OnErr, OnOk};
ghost use Rattle.std.specs.String.{string_bytes};
ghost use Rattle.abstract_syntax.specs.Values.{value_trees};
ghost use Rattle.report_texts.specs.Values.{value_text, values_text};

use crate::pieces::{finish, put_value, put_values};
use std::alloc::Global;
use vdm_kinds::OutOfMemory;
use vdm_names::Names;
use vdm_values::Value;

/// Appends the text of a value. A refusal leaves `out` as before.
pub fn text(alloc: Global, v: &Value, names: &Names, out: &mut Vec<u8>) -> Result<(), OutOfMemory>
    ensures ok { OnOk result (out.new.items ≡ out.old.items ++ value_text names.now v.now) }
    ensures err { OnErr result (out.new.items ≡ out.old.items) }
{
    let text = value_string(alloc, v, names)?;
    out.extend_from_slice(text.as_bytes())?;
    Ok(())
}

/// Appends the text of a value to a string. A refusal leaves the string as before.
pub fn push_value(
    alloc: Global,
    text: &mut String,
    v: &Value,
    names: &Names,
) -> Result<(), OutOfMemory>
    ensures ok { OnOk result (string_bytes text.new ≡ string_bytes text.old ++ value_text names.now v.now) }
    ensures err { OnErr result (string_bytes text.new ≡ string_bytes text.old) }
{
    let value = value_string(alloc, v, names)?;
    text.push_str(value.as_str())?;
    Ok(())
}

/// Appends the texts of values to a string, with `, ` between each two. A refusal leaves the string as before.
pub fn push_values(
    alloc: Global,
    text: &mut String,
    values: &[Value],
    names: &Names,
) -> Result<(), OutOfMemory>
    ensures ok { OnOk result (string_bytes text.new ≡ string_bytes text.old ++ values_text names.now (value_trees values.now)) }
    ensures err { OnErr result (string_bytes text.new ≡ string_bytes text.old) }
{
    let values = values_string(alloc, values, names)?;
    text.push_str(values.as_str())?;
    Ok(())
}

fn value_string(alloc: Global, v: &Value, names: &Names) -> Result<String, OutOfMemory>
    ensures { IfOk result (λ text. string_bytes text ≡ value_text names.now v.now) }
{
    let mut text = String::new(alloc);
    let mut pieces = Vec::new(alloc);
    put_value(&mut text, &mut pieces, v, names)?;
    finish(&mut text, &mut pieces, names)?;
    Ok(text)
}

fn values_string(alloc: Global, values: &[Value], names: &Names) -> Result<String, OutOfMemory>
    ensures { IfOk result (λ text. string_bytes text ≡ values_text names.now (value_trees values.now)) }
{
    let mut text = String::new(alloc);
    let mut pieces = Vec::new(alloc);
    put_values(&mut pieces, values)?;
    finish(&mut text, &mut pieces, names)?;
    Ok(text)
}
