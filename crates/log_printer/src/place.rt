// The text of a place.

ghost use Rattle.std.specs.Prelude.{◌≡◌, ◌++◌, OnErr, OnOk};
ghost use Rattle.std.specs.String.{string_bytes};
ghost use Rattle.report_texts.specs.Lines.{part_text, place_text};

use std::alloc::Global;
use vdm_kinds::{OutOfMemory, Part, Place};

/// Appends the text of a place, as `expr 1:41`. A refusal leaves the string as before.
pub fn push_place(alloc: Global, text: &mut String, place: Place) -> Result<(), OutOfMemory>
    ensures ok { OnOk result (string_bytes text.new ≡ string_bytes text.old ++ place_text place) }
    ensures err { OnErr result (string_bytes text.new ≡ string_bytes text.old) }
{
    let part = part_text(place.part);
    let line = place.line;
    let column = place.column;
    let place = format!(in alloc; "{part} {line}:{column}")?;
    text.push_str(place.as_str())?;
    Ok(())
}

fn part_text(part: Part) -> &'static str
    ensures { result.now ≡ part_text part }
{
    match part {
        Part::Spec => "spec",
        Part::Expr => "expr",
    }
}
