// One line after another, and which library answers it.

use row_desk::Desk;
use row_words::Line;
use std::alloc::Global;
use std::io::{self, BufRead, BufReader, BufWriter, ErrorKind, Write};
use std::rt::Clock;
use vdm_names::Names;

/// Answers each line of the input by a line of the output.
///
/// # Errors
/// A read or a write that fails, and want of memory, after which a line has no answer.
pub fn serve<R: Clock, I: io::Read + Drop, O: Write + Drop>(
    rt: &R,
    alloc: Global,
    input: I,
    output: O,
) -> io::Result<()> {
    let mut out = BufWriter::new(alloc, output)?;
    for line in BufReader::new(alloc, input)?.lines(alloc) {
        write_answer(rt, alloc, line?.as_str(), &mut out)?;
    }
    out.flush()
}

fn write_answer<R: Clock, O: Write>(
    rt: &R,
    alloc: Global,
    asked: &str,
    out: &mut O,
) -> io::Result<()> {
    let mut line = Line::new(alloc, asked);
    answer(rt, &mut line);
    if line.is_short() {
        return Err(ErrorKind::OutOfMemory.into());
    }
    out.write_all(line.answer().as_bytes())?;
    out.write_all(b"\n")
}

fn answer<R: Clock>(rt: &R, line: &mut Line<'_>) {
    match line.word() {
        "time" => answer_time(rt, line),
        "check" => row_checks::answer(rt, line),
        word => answer_over_desk(line, word),
    }
}

fn answer_time<R: Clock>(rt: &R, line: &mut Line<'_>) {
    match line.word() {
        "grammar" => row_grammar_times::answer_time(rt, line),
        word @ ("statement" | "specification") => row_class_times::answer_time(rt, line, word),
        word @ ("table" | "look-ups") => row_table_times::answer_time(rt, line, word),
        "operator" => row_operator_times::answer_time(rt, line),
        "check" => row_checks::answer_time(rt, line),
        "bind" => row_bindings::answer_time(rt, line),
        word => row_values::answer_time(rt, line, word),
    }
}

fn answer_over_desk(line: &mut Line<'_>, word: &str) {
    match Names::new(line.alloc()) {
        Ok(names) => answer_by(&mut Desk::new(line.alloc(), names), line, word),
        Err(_) => line.fall_short(),
    }
}

// By the first library whose word it is.
fn answer_by(desk: &mut Desk, line: &mut Line<'_>, word: &str) {
    let is_answered = row_values::answer(desk, line, word)
        || row_operators::answer(desk, line, word)
        || row_comparisons::answer(line, word)
        || row_lists::answer(desk, line, word)
        || row_patterns::answer(desk, line, word)
        || row_bindings::answer(desk, line, word)
        || row_logs::answer(desk, line, word)
        || row_grammar::answer(&mut desk.names, line, word)
        || row_classes::answer(&mut desk.names, line, word)
        || row_tables::answer(&mut desk.names, line, word);
    if !is_answered {
        line.refuse();
    }
}
