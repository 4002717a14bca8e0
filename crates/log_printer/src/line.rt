// The line of an entry.

ghost use Rattle.std.specs.Prelude.{◌≡◌, ◌++◌, OnErr, OnOk};
ghost use Rattle.std.specs.String.{string_bytes};
ghost use Rattle.report_texts.specs.Log.{log_line};

use crate::deed::push_deed;
use crate::thread::push_thread;
use run_journal::Entry;
use std::alloc::Global;
use std::fmt::Write;
use vdm_kinds::OutOfMemory;
use vdm_names::Names;

/// Appends the line of an entry, the k-th. A refusal leaves `out` as before.
pub fn log_line(
    alloc: Global,
    k: u64,
    e: &Entry,
    names: &Names,
    out: &mut Vec<u8>,
) -> Result<(), OutOfMemory>
    ensures ok { OnOk result (out.new.items ≡ out.old.items ++ log_line names.now k e.now) }
    ensures err { OnErr result (out.new.items ≡ out.old.items) }
{
    let mut text = String::new(alloc);
    push_line(alloc, &mut text, k, e, names)?;
    out.extend_from_slice(text.as_bytes())?;
    Ok(())
}

/// Appends the line of an entry to a string, as ``9 main 2 write Counter`n = 1``. A refusal may leave a part of it there.
pub(crate) fn push_line(
    alloc: Global,
    text: &mut String,
    k: u64,
    e: &Entry,
    names: &Names,
) -> Result<(), OutOfMemory>
    ensures { OnOk result (string_bytes text.new ≡ string_bytes text.old ++ log_line names.now k e.now) }
{
    write!(text, "{k} ")?;
    push_thread(alloc, text, e.thread)?;
    let object = e.object;
    write!(text, " {object} ")?;
    push_deed(alloc, text, &e.deed, names)?;
    text.push('\n')?;
    Ok(())
}
