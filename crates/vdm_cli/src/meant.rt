// The report that a command means, before it is written.

ghost use Rattle.std.specs.Prelude.{◌≡◌, ℕ, List, [], length, Some, Err, IfOk};
ghost use Rattle.vdm_kinds.specs.NameList.{built_in_names};
ghost use Rattle.vdm_kinds.specs.declared.spec_fault.SpecFault.{SpecFault};
ghost use Rattle.text_phases.specs.Phases.{spec_refusal};
ghost use Rattle.text_reader.specs.Below.spec_table.specs.Tables.{table_spec};
ghost use Rattle.report_texts.specs.Words.{check, run, asks_log};
ghost use Rattle.vdm_report.specs.Ends.{status_of, HasReportLine};
ghost use Rattle.vdm_report.specs.Outside.{around};
ghost use Rattle.vdm_cli.specs.Commands.{command_view, limits_view};
ghost use Rattle.vdm_cli.specs.Meant.{HasClasses, MeansCommand, MeansTexts, ReadsSpec};

use crate::command::Command;
use crate::run::run;
use std::alloc::Global;
use text_reader::handed::spec_table::ClassTable;
use text_reader::{read_specification, read_texts};
use vdm_kinds::{Halt, Limits, SpecFault};
use vdm_names::Names;
use vdm_outside::{Source, read_limited};
use vdm_report::{End, Report};

/// The most bytes of a specification, 4 MiB.
const SPEC_LIMIT: usize = 4_194_304;

/// What a command and the source mean: the report, but for what becomes of writing it. The names are those of the texts
/// behind the built-in ones.
pub fn meant_by<S: Source>(
    alloc: Global,
    command: Command<'_>,
    source: &mut S,
    names: &mut Names,
) -> Report
    requires { names.old ≡ built_in_names }
    ensures means { (spec : List ℕ) × MeansCommand (around S.left S.faults source.old source.new) spec
        (command_view command.entry) names.new result.journal result.end }
    ensures status { result.status ≡ status_of result.end }
    ensures log { result.log ≡ asks_log (command_view command.entry) }
    ensures line { HasReportLine result.end }
    ensures reading { ReadsSpec S.left S.reads source.old source.new }
{
    match read_limited(alloc, source, SPEC_LIMIT) {
        Ok(spec) => meant_of_spec(alloc, &spec, command, names),
        Err(Halt::Of(_)) => Report::without_run(alloc, End::ReadFault, command.asks_log()),
        Err(Halt::OutOfMemory) => {
            Report::without_run(alloc, End::OutOfMemory, command.asks_log())
        }
    }
}

/// What a command means behind the bytes that were read.
fn meant_of_spec(alloc: Global, spec: &[u8], command: Command<'_>, names: &mut Names) -> Report
    requires { names.old ≡ built_in_names }
    ensures means { MeansTexts (command_view command.entry) spec.now names.new result.journal result.end }
    ensures status { result.status ≡ status_of result.end }
    ensures log { result.log ≡ asks_log (command_view command.entry) }
    ensures line { HasReportLine result.end }
{
    match command {
        Command::Check => Report::without_run(alloc, end_of_check(alloc, spec, names), false),
        Command::Run { text, limits, log } => {
            meant_of_texts(alloc, spec, text.as_bytes(), limits, log, names)
        }
    }
}

/// How a check of a specification ends: with its classes, or its first refusal.
fn end_of_check(alloc: Global, spec: &[u8], names: &mut Names) -> End
    requires { names.old ≡ built_in_names }
    ensures means { MeansTexts check spec.now names.new [] result }
    ensures line { HasReportLine result }
{
    match class_count(alloc, spec, names) {
        Ok(classes) => End::Checked(classes),
        Err(Halt::Of(fault)) => End::Refused(fault),
        Err(Halt::OutOfMemory) => End::OutOfMemory,
    }
}

/// How many classes a specification has that is accepted.
fn class_count(alloc: Global, spec: &[u8], names: &mut Names) -> Result<u64, Halt<SpecFault>>
    requires { names.old ≡ built_in_names }
    ensures classes { IfOk result (HasClasses spec.now) }
    ensures refused { (fault : SpecFault) → result ≡ Err (Halt.Of fault) → spec_refusal spec.now ≡ Some fault }
{
    let checked = read_specification(alloc, spec, names)?;
    Ok(classes_in(checked.table()))
}

/// How many classes the text of a table has: `IO`, the first of all, stands in none.
fn classes_in(table: &ClassTable) -> u64
    ensures { result ≡ length (table_spec table.now).classes }
{
    match table.classes() {
        [_, classes @ ..] => classes.len() as u64,
        [] => 0,
    }
}

/// What the two texts mean: their first refusal, or a run of the expression.
fn meant_of_texts(
    alloc: Global,
    spec: &[u8],
    text: &[u8],
    limits: Limits,
    log: bool,
    names: &mut Names,
) -> Report
    requires { names.old ≡ built_in_names }
    ensures means { MeansTexts (run text.now (limits_view limits) log) spec.now names.new result.journal result.end }
    ensures status { result.status ≡ status_of result.end }
    ensures log { result.log ≡ log }
    ensures line { HasReportLine result.end }
{
    match read_texts(alloc, spec, text, names) {
        Ok((checked, expression)) => {
            run(
                alloc,
                names,
                checked.table(),
                expression.expr(),
                limits.steps,
                log,
            )
        }
        Err(Halt::Of(fault)) => Report::without_run(alloc, End::Refused(fault), log),
        Err(Halt::OutOfMemory) => Report::without_run(alloc, End::OutOfMemory, log),
    }
}
