// Strings: sequences of characters alone.

ghost use Rattle.std.specs.Prelude.{◌≡◌, ◌++◌, OnErr, OnOk};
ghost use Rattle.std.specs.String.{string_bytes};
ghost use Rattle.abstract_syntax.specs.Values.{value_trees};
ghost use Rattle.report_texts.specs.Values.{is_character, are_characters, is_string, within_string, all_within, string_text};

use crate::quoted::push_escaped;
use std::alloc::Global;
use vdm_kinds::OutOfMemory;
use vdm_values::{Node, Value};

/// Whether a sequence of these is written as a string: it has characters alone, and one at least.
pub(crate) fn is_string(items: &[Value]) -> bool
    ensures { result ≡ is_string (value_trees items.now) }
{
    let [first, rest @ ..] = items else {
        return false;
    };
    is_character(first) && are_characters(rest)
}

/// Whether all of these are characters.
pub(crate) fn are_characters(items: &[Value]) -> bool
    ensures { result ≡ are_characters (value_trees items.now) }
{
    for item in items {
        if !is_character(item) {
            return false;
        }
    }
    true
}

fn is_character(item: &Value) -> bool
    ensures { result ≡ is_character item.now }
{
    matches!(item.node(), Node::Char(_))
}

/// Appends characters as a string, as `"abc"`. A refusal leaves the text as before.
pub fn push_string(alloc: Global, text: &mut String, items: &[Value]) -> Result<(), OutOfMemory>
    ensures ok { OnOk result (string_bytes text.new ≡ string_bytes text.old ++ string_text (value_trees items.now)) }
    ensures err { OnErr result (string_bytes text.new ≡ string_bytes text.old) }
{
    let mut string = String::new(alloc);
    put_string(&mut string, items)?;
    text.push_str(string.as_str())?;
    Ok(())
}

/// Appends characters as a string. A refusal may leave a part of it there.
pub(crate) fn put_string(text: &mut String, items: &[Value]) -> Result<(), OutOfMemory>
    ensures { OnOk result (string_bytes text.new ≡ string_bytes text.old ++ string_text (value_trees items.now)) }
{
    text.push_str("\"")?;
    push_all_within(text, items)?;
    Ok(text.push_str("\"")?)
}

fn push_all_within(text: &mut String, items: &[Value]) -> Result<(), OutOfMemory>
    ensures { OnOk result (string_bytes text.new ≡ string_bytes text.old ++ all_within (value_trees items.now)) }
{
    for item in items {
        push_within(text, item)?;
    }
    Ok(())
}

// a character within a string
fn push_within(text: &mut String, item: &Value) -> Result<(), OutOfMemory>
    ensures { OnOk result (string_bytes text.new ≡ string_bytes text.old ++ within_string item.now) }
{
    match item.node() {
        Node::Char(c) => push_escaped(text, '"', *c),
        _ => Ok(()),
    }
}
