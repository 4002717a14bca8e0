// A report, written.

ghost use Rattle.std.specs.Prelude.{◌≡◌, None, [], IfOk, IfErr, OnOk, option_copied};
ghost use Rattle.vdm_report.specs.Ends.{status_of, HasReportLine, NeedsNoNames};
ghost use Rattle.vdm_report.specs.Outside.{around};
ghost use Rattle.vdm_report.specs.Named.{names_in};
ghost use Rattle.vdm_report.specs.Halted.{end_of_halt};
ghost use Rattle.vdm_report.specs.Written.{Wrote, IsOutput};

use crate::end::End;
use crate::last_line::last_line;
use crate::report::Report;
use log_printer::report_text;
use std::alloc::Global;
use vdm_kinds::{Halt, OutOfMemory};
use vdm_names::Names;
use vdm_outside::{Failed, Sink, write_whole};

/// Writes the report that a call means, over the names of the texts that ran; none where nothing ran. Gives the report
/// with the end that is left then. The journal stays, whatever becomes of the writing.
pub fn written<K: Sink>(alloc: Global, meant: Report, names: Option<&Names>, sink: &mut K) -> Report
    requires status { meant.status ≡ status_of meant.end }
    requires line { HasReportLine meant.end }
    requires named { names ≡ None → meant.journal ≡ [] }
    requires nameless { names ≡ None → NeedsNoNames meant.end }
    ensures status { result.status ≡ status_of result.end }
    ensures journal { result.journal ≡ meant.journal }
    ensures log { result.log ≡ meant.log }
    ensures wrote { Wrote (names_in (option_copied names.entry)) meant.journal meant.log meant.end
        (around K.held K.faults sink.old sink.new) result.end }
{
    match sent(alloc, &meant, names, sink) {
        Ok(()) => meant,
        Err(Halt::Of(Failed)) => meant.ending(End::WriteFault),
        Err(Halt::OutOfMemory) => meant.ending(End::OutOfMemory),
    }
}

/// Writes the text of a report.
///
/// # Errors
///
/// `Failed` where a write failed, behind a part of the text. Where memory was wanting, in the call or here, nothing is
/// written.
fn sent<K: Sink>(
    alloc: Global,
    report: &Report,
    names: Option<&Names>,
    sink: &mut K,
) -> Result<(), Halt<Failed>>
    requires line { HasReportLine report.now.end }
    requires named { names ≡ None → report.now.journal ≡ [] }
    requires nameless { names ≡ None → NeedsNoNames report.now.end }
    ensures sent { OnOk result (Wrote (names_in (option_copied names.entry)) report.now.journal report.now.log report.now.end
        (around K.held K.faults sink.old sink.new) report.now.end) }
    ensures halted { IfErr result (λ halt. Wrote (names_in (option_copied names.entry)) report.now.journal report.now.log
        report.now.end (around K.held K.faults sink.old sink.new) (end_of_halt halt)) }
{
    let text = text_of(alloc, report, names)?;
    write_whole(sink, &text).map_err(Halt::Of)
}

/// The text of a report: what was printed, the log where it is asked for, and the last line.
///
/// # Errors
///
/// Want of memory, in the call or here.
fn text_of(alloc: Global, report: &Report, names: Option<&Names>) -> Result<Vec<u8>, OutOfMemory>
    requires line { HasReportLine report.now.end }
    requires named { names ≡ None → report.now.journal ≡ [] }
    requires nameless { names ≡ None → NeedsNoNames report.now.end }
    ensures { IfOk result (λ text. IsOutput (names_in (option_copied names.entry)) report.now.journal report.now.log
        report.now.end text.items) }
{
    let last = last_line(alloc, &report.end, names)?;
    match names {
        Some(names) => report_text(alloc, &report.journal, report.log, last.as_bytes(), names),
        None => Ok(last.into_bytes()),
    }
}
