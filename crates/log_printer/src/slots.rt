// The texts of slots.

ghost use Rattle.std.specs.Prelude.{◌≡◌, ◌++◌, OnErr, OnOk};
ghost use Rattle.std.specs.String.{string_bytes};
ghost use Rattle.report_texts.specs.Values.{slot_text, spaced_text};
ghost use Rattle.report_texts.specs.Log.{listed, texts_of};

use std::alloc::Global;
use value_text::{push_slot, push_value};
use vdm_kinds::OutOfMemory;
use vdm_names::Names;
use vdm_values::Slot;

/// Appends the texts of slots, as `0, ?`. A refusal may leave a part of them there.
pub(crate) fn push_slots(
    alloc: Global,
    text: &mut String,
    slots: &[Slot],
    names: &Names,
) -> Result<(), OutOfMemory>
    ensures { OnOk result (string_bytes text.new ≡ string_bytes text.old ++ listed (texts_of (slot_text names.now) slots.now)) }
{
    let [first, rest @ ..] = slots else {
        return Ok(());
    };
    push_slot(alloc, text, first, names)?;
    for slot in rest {
        text.push_str(", ")?;
        push_slot(alloc, text, slot, names)?;
    }
    Ok(())
}

/// Appends the value of a slot behind a space, or nothing where it is unset. A refusal leaves the string as before.
pub fn push_spaced(
    alloc: Global,
    text: &mut String,
    slot: &Slot,
    names: &Names,
) -> Result<(), OutOfMemory>
    ensures ok { OnOk result (string_bytes text.new ≡ string_bytes text.old ++ spaced_text names.now slot.now) }
    ensures err { OnErr result (string_bytes text.new ≡ string_bytes text.old) }
{
    match slot {
        Slot::Unset => Ok(()),
        Slot::Held(value) => {
            let mut spaced = String::from_str(alloc, " ")?;
            push_value(alloc, &mut spaced, value, names)?;
            Ok(text.push_str(spaced.as_str())?)
        }
    }
}
