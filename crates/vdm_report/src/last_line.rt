// The last line of a report.

ghost use Rattle.std.specs.Prelude.{◌≡◌, ◌++◌, None, IfOk, OnOk, option_copied};
ghost use Rattle.std.specs.String.{string_bytes};
ghost use Rattle.report_texts.specs.Lines.{refused_line, failed_line, result_line, made_line, deadlock_line, blocked_text, blocked_texts};
ghost use Rattle.vdm_report.specs.Ends.{IsLastLine, HasReportLine, NeedsNoNames};
ghost use Rattle.vdm_report.specs.Named.{names_in};

use crate::end::End;
use log_printer::{push_operation, push_place, push_spaced, push_thread};
use report_texts::{Blocked, BlockedList};
use run_journal::Thread;
use std::alloc::Global;
use std::fmt::Write;
use value_text::push_value;
use vdm_kinds::{OutOfMemory, Place, RunFault, SpecFault};
use vdm_names::Names;
use vdm_values::Slot;

const USAGE: &str =
    "usage: vdm check | vdm run EXPR [--lanes N] [--slice N] [--ticks N] [--steps N] [--entries N] [--log] | vdm make N\n";

/// The last line of a report that ends so, with its line feed, over the names of the texts that ran.
///
/// # Errors
///
/// Want of memory, also where it is the end: then there is no line.
pub fn last_line(alloc: Global, end: &End, names: Option<&Names>) -> Result<String, OutOfMemory>
    requires line { HasReportLine end.now }
    requires nameless { names ≡ None → NeedsNoNames end.now }
    ensures { IfOk result (λ text. IsLastLine (names_in (option_copied names.entry)) end.now (string_bytes text)) }
{
    match end {
        End::Ended(slot) => result_line(alloc, slot, named(names)),
        End::Checked(classes) => Ok(format!(in alloc; "checked: classes {classes}\n")?),
        End::Made {
            classes,
            entries,
            result,
        } => made_line(alloc, *classes, *entries, *result),
        End::Refused(fault) => refused_line(alloc, fault),
        End::Usage => Ok(String::from_str(alloc, USAGE)?),
        End::Failed {
            fault,
            exit,
            thread,
            place,
        } => failed_line(alloc, (*fault, *thread, *place), exit, named(names)),
        End::Deadlock(blocked) => deadlock_line(alloc, blocked, named(names)),
        End::TicksOver(ticks) => Ok(format!(in alloc; "ticks over: {ticks}\n")?),
        End::ReadFault => Ok(String::from_str(alloc, "read fault\n")?),
        End::TickFault => Ok(String::from_str(alloc, "tick fault\n")?),
        End::OutOfMemory => Err(OutOfMemory),
        End::JournalFull(entries) => Ok(format!(in alloc; "journal full: {entries}\n")?),
        End::WriteFault => unreachable!(),
    }
}

// The names, where something ran.
fn named(names: Option<&Names>) -> &Names
    requires { names ≡ None → ⊥ }
    ensures { result.now ≡ names_in (option_copied names.entry) }
{
    match names {
        Some(names) => names,
        None => unreachable!(),
    }
}

fn made_line(alloc: Global, classes: u64, entries: u64, number: u64) -> Result<String, OutOfMemory>
    ensures { IfOk result (λ text. string_bytes text ≡ made_line classes entries number) }
{
    let mut text = format!(in alloc; "made: classes {classes}")?;
    write!(text, ", entries {entries}")?;
    write!(text, ", result {number}\n")?;
    Ok(text)
}

fn result_line(alloc: Global, slot: &Slot, names: &Names) -> Result<String, OutOfMemory>
    ensures { IfOk result (λ text. string_bytes text ≡ result_line names.now slot.now) }
{
    match slot {
        Slot::Unset => Ok(String::from_str(alloc, "result: ()\n")?),
        Slot::Held(value) => {
            let mut text = String::from_str(alloc, "result: ")?;
            push_value(alloc, &mut text, value, names)?;
            text.push_str("\n")?;
            Ok(text)
        }
    }
}

fn refused_line(alloc: Global, fault: &SpecFault) -> Result<String, OutOfMemory>
    ensures { IfOk result (λ text. string_bytes text ≡ refused_line fault.now) }
{
    let number = fault.kind.number();
    let name = fault.kind.name();
    let mut text = format!(in alloc; "refused: {number} {name} at ")?;
    push_place(alloc, &mut text, fault.place)?;
    text.push('\n')?;
    Ok(text)
}

fn failed_line(
    alloc: Global,
    what: (RunFault, Thread, Place),
    exit: &Slot,
    names: &Names,
) -> Result<String, OutOfMemory>
    ensures { IfOk result (λ text. string_bytes text ≡ failed_line names.now what.0 exit.now what.1 what.2) }
{
    let number = what.0.number();
    let name = what.0.name();
    let mut text = format!(in alloc; "fault: {number} {name}")?;
    push_spaced(alloc, &mut text, exit, names)?;
    text.push_str(" in ")?;
    push_thread(alloc, &mut text, what.1)?;
    text.push_str(" at ")?;
    push_place(alloc, &mut text, what.2)?;
    text.push('\n')?;
    Ok(text)
}

fn deadlock_line(alloc: Global, blocked: &BlockedList, names: &Names) -> Result<String, OutOfMemory>
    ensures { IfOk result (λ text. string_bytes text ≡ deadlock_line names.now blocked.now) }
{
    let mut text = String::from_str(alloc, "deadlock: ")?;
    push_all_blocked(alloc, &mut text, blocked.as_slice(), names)?;
    text.push_str("\n")?;
    Ok(text)
}

// with `; ` between each two
fn push_all_blocked(
    alloc: Global,
    text: &mut String,
    blocked: &[Blocked],
    names: &Names,
) -> Result<(), OutOfMemory>
    ensures { OnOk result (string_bytes text.new ≡ string_bytes text.old ++ blocked_texts names.now blocked.now) }
{
    let [first, rest @ ..] = blocked else {
        return Ok(());
    };
    push_blocked(alloc, text, *first, names)?;
    for &waiting in rest {
        text.push_str("; ")?;
        push_blocked(alloc, text, waiting, names)?;
    }
    Ok(())
}

// as ``main 2 Loop`f/0``
fn push_blocked(
    alloc: Global,
    text: &mut String,
    blocked: Blocked,
    names: &Names,
) -> Result<(), OutOfMemory>
    ensures { OnOk result (string_bytes text.new ≡ string_bytes text.old ++ blocked_text names.now blocked) }
{
    push_thread(alloc, text, blocked.thread)?;
    let object = blocked.object;
    write!(text, " {object} ")?;
    push_operation(alloc, text, blocked.op, names)
}
