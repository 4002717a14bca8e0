// What is printed of values.

ghost use Rattle.std.specs.Prelude.{◌≡◌, ◌++◌, if◌then◌else◌, map, IfOk, OnOk};
ghost use Rattle.std.specs.Str.{chars};
ghost use Rattle.abstract_syntax.specs.Values.{character, value_trees};
ghost use Rattle.report_texts.specs.Printing.{printed_text, printed_value, text_characters};
ghost use Rattle.report_texts.specs.Values.{are_characters, value_text};

use crate::string::are_characters;
use crate::value::push_value;
use std::alloc::{AllocError, Global};
use vdm_kinds::OutOfMemory;
use vdm_names::Names;
use vdm_values::{Node, Value, ValueList};

/// The characters that are printed of values, one after another: of a sequence of characters these, and of any other value its text,
/// over the names of the texts that run.
pub fn printed_text(
    alloc: Global,
    values: &[Value],
    names: &Names,
) -> Result<ValueList, OutOfMemory>
    ensures { IfOk result (λ text. text ≡ printed_text names.now values.now) }
{
    let mut text = Vec::new(alloc);
    for value in values {
        push_printed(alloc, &mut text, value, names)?;
    }
    Ok(ValueList::from_vec(text))
}

/// Adds what is printed of a value.
fn push_printed(
    alloc: Global,
    text: &mut Vec<Value>,
    value: &Value,
    names: &Names,
) -> Result<(), OutOfMemory>
    ensures { OnOk result (text.new.items ≡ text.old.items ++ printed_value names.now value.now) }
{
    match value.node() {
        Node::Seq(items) => push_sequence(alloc, text, value, items.as_slice(), names),
        _ => push_text(alloc, text, value, names),
    }
}

/// Adds what is printed of a sequence: its items, where all are characters, and else its text.
fn push_sequence(
    alloc: Global,
    text: &mut Vec<Value>,
    value: &Value,
    items: &[Value],
    names: &Names,
) -> Result<(), OutOfMemory>
    ensures { OnOk result (text.new.items ≡ text.old.items
        ++ (if are_characters (value_trees items.now) then items.now else text_characters names.now value.now)) }
{
    if are_characters(items) {
        push_all(alloc, text, items)
    } else {
        push_text(alloc, text, value, names)
    }
}

/// Adds copies of the values.
fn push_all(alloc: Global, text: &mut Vec<Value>, items: &[Value]) -> Result<(), OutOfMemory>
    ensures { OnOk result (text.new.items ≡ text.old.items ++ items.now) }
{
    for item in items {
        text.push(item.copy(alloc)?)?;
    }
    Ok(())
}

/// Adds the characters of a value's text.
fn push_text(
    alloc: Global,
    text: &mut Vec<Value>,
    value: &Value,
    names: &Names,
) -> Result<(), OutOfMemory>
    ensures { OnOk result (text.new.items ≡ text.old.items ++ text_characters names.now value.now) }
{
    let found = characters_of(alloc, value, names)?;
    push_characters(text, found.as_slice())
}

/// The characters of a value's text.
fn characters_of(alloc: Global, value: &Value, names: &Names) -> Result<Vec<char>, OutOfMemory>
    ensures { IfOk result (λ found. found.items ≡ chars (value_text names.now value.now)) }
{
    let mut shown = String::new(alloc);
    push_value(alloc, &mut shown, value, names)?;
    Ok(characters_in(alloc, shown.as_str())?)
}

/// The characters of a text.
fn characters_in(alloc: Global, text: &str) -> Result<Vec<char>, AllocError>
    ensures { IfOk result (λ found. found.items ≡ chars text.now) }
{
    text.chars().collect(alloc)
}

/// Adds characters as values.
fn push_characters(text: &mut Vec<Value>, found: &[char]) -> Result<(), OutOfMemory>
    ensures { OnOk result (text.new.items ≡ text.old.items ++ map character found.now) }
{
    for c in found {
        text.push(Value::new(Node::Char(*c)))?;
    }
    Ok(())
}
