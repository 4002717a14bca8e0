// The texts of variables that are written together.

ghost use Rattle.std.specs.Prelude.{◌≡◌, ◌++◌, OnOk};
ghost use Rattle.std.specs.String.{string_bytes};
ghost use Rattle.report_texts.specs.Log.{listed, texts_of, pair_text};

use crate::member::push_variable;
use run_journal::Write;
use std::alloc::Global;
use value_text::push_value;
use vdm_kinds::OutOfMemory;
use vdm_names::Names;

/// Appends the texts of writes, as ``C`x = 1, C`y = 2``. A refusal may leave a part of them there.
pub(crate) fn push_writes(
    alloc: Global,
    text: &mut String,
    writes: &[Write],
    names: &Names,
) -> Result<(), OutOfMemory>
    ensures { OnOk result (string_bytes text.new ≡ string_bytes text.old ++ listed (texts_of (pair_text names.now) writes.now)) }
{
    let [first, rest @ ..] = writes else {
        return Ok(());
    };
    push_pair(alloc, text, first, names)?;
    for write in rest {
        text.push_str(", ")?;
        push_pair(alloc, text, write, names)?;
    }
    Ok(())
}

fn push_pair(
    alloc: Global,
    text: &mut String,
    write: &Write,
    names: &Names,
) -> Result<(), OutOfMemory>
    ensures { OnOk result (string_bytes text.new ≡ string_bytes text.old ++ pair_text names.now write.now) }
{
    push_variable(text, write.var, names)?;
    text.push_str(" = ")?;
    push_value(alloc, text, &write.value, names)
}
