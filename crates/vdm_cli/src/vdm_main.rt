// A whole call of the program.

ghost use Rattle.std.specs.Prelude.{◌≡◌, map};
ghost use Rattle.std.specs.String.{string_bytes};
ghost use Rattle.report_texts.specs.Words.{asks_log};
ghost use Rattle.vdm_report.specs.Ends.{status_of};
ghost use Rattle.vdm_report.specs.Outside.{around};
ghost use Rattle.vdm_cli.specs.Headline.{Keeps, call_of};
ghost use Rattle.vdm_cli.specs.Commands.{command_view};
ghost use Rattle.vdm_cli.specs.Meant.{ReadsSpec, DoesCommand};

use crate::command::{Command, command_of};
use crate::meant::meant_by;
use std::alloc::Global;
use vdm_kinds::OutOfMemory;
use vdm_names::Names;
use vdm_outside::{Sink, Source};
use vdm_report::{End, Report, written};

/// A whole call of the program: the words behind its name, the source that the specification is read from, and the
/// sink that the report is written to. What it keeps is said clause by clause in `specs/Headline.antt`: its journal is
/// a run of the language's meaning whatever the end is, and the end and the output are that run's; under `check` they say
/// how many classes the specification has. What follows from the clauses is said in `laws.rt`.
pub fn vdm_main<S: Source, K: Sink>(
    alloc: Global,
    words: &[String],
    source: &mut S,
    sink: &mut K,
) -> Report
    ensures { Keeps (call_of S.left S.faults S.reads K.held K.faults
        (map string_bytes words.now) source.old source.new sink.old sink.new result) }
{
    match command_of(words) {
        Some(command) => do_command(alloc, command, source, sink),
        None => written(
            alloc,
            Report::without_run(alloc, End::Usage, false),
            None,
            sink,
        ),
    }
}

/// Reads the specification, checks it or runs the command's expression behind it, and writes the report.
fn do_command<S: Source, K: Sink>(
    alloc: Global,
    command: Command<'_>,
    source: &mut S,
    sink: &mut K,
) -> Report
    ensures status { result.status ≡ status_of result.end }
    ensures log { result.log ≡ asks_log (command_view command.entry) }
    ensures does { DoesCommand (command_view command.entry) (around S.left S.faults source.old source.new)
        (around K.held K.faults sink.old sink.new) result }
    ensures reading { ReadsSpec S.left S.reads source.old source.new }
{
    match Names::new(alloc) {
        Ok(mut names) => {
            let meant = meant_by(alloc, command, source, &mut names);
            written(alloc, meant, Some(&names), sink)
        }
        Err(OutOfMemory) => Report::without_run(alloc, End::OutOfMemory, command.asks_log()),
    }
}
