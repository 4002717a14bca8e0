// `value V` and `slot TEXT S ..`: the texts of a value, and of slots behind a text. `line K E`: the line of an entry, the
// k-th. `report TEXT 1 E ..` and `report TEXT 0 E ..`: a report with this last line, with the log and without.

use log_printer::{log_line, report_text};
use row_desk::Desk;
use row_words::Line;
use value_text::{slot_text, text};
use vdm_kinds::OutOfMemory;

pub(crate) fn answer(desk: &mut Desk, line: &mut Line<'_>, word: &str) {
    match word {
        "value" => values(desk, line),
        "slot" => slots(desk, line),
        "line" => lines(desk, line),
        _ => report(desk, line),
    }
    line.say_names(&desk.names);
}

// The texts of the values.
fn values(desk: &mut Desk, line: &mut Line<'_>) {
    desk.read(line);
    let mut bytes = Vec::new(line.alloc());
    for value in &desk.values {
        note(line, text(line.alloc(), value, &desk.names, &mut bytes));
    }
    line.say_bytes(&bytes);
}

// The texts of the slots, behind a text.
fn slots(desk: &mut Desk, line: &mut Line<'_>) {
    let mut bytes = line.bytes();
    desk.read(line);
    for slot in &desk.slots {
        note(line, slot_text(line.alloc(), slot, &desk.names, &mut bytes));
    }
    line.say_bytes(&bytes);
}

fn note(line: &mut Line<'_>, written: Result<(), OutOfMemory>) {
    if written.is_err() {
        line.fall_short();
    }
}

// The lines of the entries, of which there is one.
fn lines(desk: &mut Desk, line: &mut Line<'_>) {
    let k = line.whole();
    desk.read(line);
    let mut bytes = Vec::new(line.alloc());
    for entry in desk.entries.as_slice() {
        note(
            line,
            log_line(line.alloc(), k, entry, &desk.names, &mut bytes),
        );
    }
    line.say_bytes(&bytes);
}

// The report of all entries.
fn report(desk: &mut Desk, line: &mut Line<'_>) {
    let last = line.bytes();
    let has_log = line.number() == 1;
    desk.read(line);
    say_report(
        line,
        report_text(line.alloc(), &desk.entries, has_log, &last, &desk.names),
    );
}

fn say_report(line: &mut Line<'_>, report: Result<Vec<u8>, OutOfMemory>) {
    match report {
        Ok(bytes) => line.say_bytes(&bytes),
        Err(OutOfMemory) => line.fall_short(),
    }
}
