// What entries print.

ghost use Rattle.std.specs.Prelude.{◌≡◌, ◌-◌, ◌++◌, ◌==◌, IfOk, OnOk, get_or, length};
ghost use Rattle.std.specs.String.{string_bytes};
ghost use Rattle.report_texts.specs.Output.{plain_text, plain_texts, printed, prints, whole_lines};

use run_journal::{Deed, Entry};
use std::alloc::Global;
use vdm_kinds::OutOfMemory;
use vdm_values::{Node, Value};

/// What the entries print, with a line feed behind it where it is not empty and does not end in one.
pub(crate) fn prints(alloc: Global, entries: &[Entry]) -> Result<String, OutOfMemory>
    ensures { IfOk result (λ text. string_bytes text ≡ whole_lines (prints entries.now)) }
{
    let mut text = String::new(alloc);
    push_prints(&mut text, entries)?;
    end_line(&mut text)?;
    Ok(text)
}

// A line feed where the text is not empty and does not end in one.
fn end_line(text: &mut String) -> Result<(), OutOfMemory>
    ensures { OnOk result (string_bytes text.new ≡ whole_lines (string_bytes text.old)) }
{
    if !ends_line(text.as_bytes()) {
        text.push_str("\n")?;
    }
    Ok(())
}

fn ends_line(bytes: &[u8]) -> bool
    ensures { result ≡ (get_or bytes.now (length bytes.now - 1) 10 == 10) }
{
    match bytes.last() {
        Some(last) => *last == b'\n',
        None => true,
    }
}

fn push_prints(text: &mut String, entries: &[Entry]) -> Result<(), OutOfMemory>
    ensures { OnOk result (string_bytes text.new ≡ string_bytes text.old ++ prints entries.now) }
{
    for entry in entries {
        push_printed(text, &entry.deed)?;
    }
    Ok(())
}

fn push_printed(text: &mut String, deed: &Deed) -> Result<(), OutOfMemory>
    ensures { OnOk result (string_bytes text.new ≡ string_bytes text.old ++ printed deed.now) }
{
    match deed {
        Deed::Print { text: printed } => push_plain_texts(text, printed.as_slice()),
        _ => Ok(()),
    }
}

fn push_plain_texts(text: &mut String, items: &[Value]) -> Result<(), OutOfMemory>
    ensures { OnOk result (string_bytes text.new ≡ string_bytes text.old ++ plain_texts items.now) }
{
    for item in items {
        push_plain(text, item)?;
    }
    Ok(())
}

// a character as it stands
fn push_plain(text: &mut String, item: &Value) -> Result<(), OutOfMemory>
    ensures { OnOk result (string_bytes text.new ≡ string_bytes text.old ++ plain_text item.now) }
{
    match item.node() {
        Node::Char(c) => Ok(text.push(*c)?),
        _ => Ok(()),
    }
}
