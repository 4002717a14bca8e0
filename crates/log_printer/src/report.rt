// What a report writes.

ghost use Rattle.std.specs.Prelude.{◌≡◌, ◌++◌, IfOk, OnOk};
ghost use Rattle.std.specs.String.{string_bytes};
ghost use Rattle.report_texts.specs.Log.{log_lines};
ghost use Rattle.report_texts.specs.Output.{output};

use crate::line::push_line;
use crate::prints::prints;
use run_journal::{Entry, EntryList};
use std::alloc::Global;
use vdm_kinds::OutOfMemory;
use vdm_names::Names;

/// The report: what is printed, the log where it is asked for, then the last line. Where memory is wanting, what was written
/// of it is gone.
pub fn report_text(
    alloc: Global,
    journal: &EntryList,
    log: bool,
    last: &[u8],
    names: &Names,
) -> Result<Vec<u8>, OutOfMemory>
    ensures { IfOk result (λ text. text.items ≡ output names.now journal.now log last.now) }
{
    let mut text = prints(alloc, journal.as_slice())?;
    if log {
        push_log(alloc, &mut text, journal.as_slice(), names)?;
    }
    let mut out = text.into_bytes();
    out.extend_from_slice(last)?;
    Ok(out)
}

/// Appends the lines of the entries, numbered from 1. A refusal may leave a part of them there.
fn push_log(
    alloc: Global,
    text: &mut String,
    entries: &[Entry],
    names: &Names,
) -> Result<(), OutOfMemory>
    ensures { OnOk result (string_bytes text.new ≡ string_bytes text.old ++ log_lines names.now 1 entries.now) }
{
    for (index, entry) in entries.iter().enumerate() {
        push_line(alloc, text, index as u64 + 1, entry, names)?;
    }
    Ok(())
}
