// The text of a slot.

ghost use Rattle.std.specs.Prelude.{◌≡◌, ◌++◌, OnErr, OnOk};
ghost use Rattle.std.specs.String.{string_bytes};
ghost use Rattle.report_texts.specs.Values.{slot_text};

use crate::value::{push_value, text};
use std::alloc::Global;
use vdm_kinds::OutOfMemory;
use vdm_names::Names;
use vdm_values::Slot;

/// Appends the text of a slot: `?` where it is unset, else that of its value. A refusal leaves `out` as before.
pub fn slot_text(
    alloc: Global,
    slot: &Slot,
    names: &Names,
    out: &mut Vec<u8>,
) -> Result<(), OutOfMemory>
    ensures ok { OnOk result (out.new.items ≡ out.old.items ++ slot_text names.now slot.now) }
    ensures err { OnErr result (out.new.items ≡ out.old.items) }
{
    match slot {
        Slot::Unset => Ok(out.extend_from_slice(b"?")?),
        Slot::Held(value) => text(alloc, value, names, out),
    }
}

/// Appends the text of a slot to a string. A refusal leaves the string as before.
pub fn push_slot(
    alloc: Global,
    text: &mut String,
    slot: &Slot,
    names: &Names,
) -> Result<(), OutOfMemory>
    ensures ok { OnOk result (string_bytes text.new ≡ string_bytes text.old ++ slot_text names.now slot.now) }
    ensures err { OnErr result (string_bytes text.new ≡ string_bytes text.old) }
{
    match slot {
        Slot::Unset => Ok(text.push_str("?")?),
        Slot::Held(value) => push_value(alloc, text, value, names),
    }
}
