// `time text KIND N`: how many bytes a text has, and the nanoseconds of the call: that of a set of N numbers (`set`), of a
// string of N characters (`string`), or of a report with the log of N entries (`log`).

use crate::times::{nanoseconds, say_time};
use log_printer::report_text;
use row_desk::made_value;
use row_words::Line;
use run_journal::{Deed, Entry, EntryList, Thread};
use std::rt::Clock;
use std::time::Instant;
use value_text::text;
use vdm_kinds::{Name, VarRef};
use vdm_names::Names;
use vdm_sets::set_from;
use vdm_values::{Node, Slot, Value, ValueList};

/// Says how long a text is, and how many nanoseconds it took.
pub(crate) fn time_text<R: Clock>(rt: &R, line: &mut Line<'_>) {
    match Names::new(line.alloc()) {
        Ok(names) => time_kind(rt, line, &names),
        Err(_) => line.fall_short(),
    }
}

fn time_kind<R: Clock>(rt: &R, line: &mut Line<'_>, names: &Names) {
    match line.word() {
        "set" => time_set(rt, line, names),
        "string" => time_string(rt, line, names),
        "log" => time_log(rt, line, names),
        _ => line.refuse(),
    }
}

fn time_set<R: Clock>(rt: &R, line: &mut Line<'_>, names: &Names) {
    let items = ValueList::from_vec(numbers(line));
    let made = set_from(line.alloc(), items);
    let set = made_value(line, made);
    time_value(rt, line, &set, names);
}

fn time_string<R: Clock>(rt: &R, line: &mut Line<'_>, names: &Names) {
    let string = Value::new(Node::Seq(characters(line)));
    time_value(rt, line, &string, names);
}

fn time_value<R: Clock>(rt: &R, line: &mut Line<'_>, value: &Value, names: &Names) {
    let mut bytes = Vec::new(line.alloc());
    let began = Instant::now(rt).ok();
    let made = text(line.alloc(), value, names, &mut bytes);
    let taken = nanoseconds(rt, line, began);
    say_time(line, bytes.len(), taken);
    if made.is_err() {
        line.fall_short();
    }
}

// The numbers from 0 on, as many as the next word says.
fn numbers(line: &mut Line<'_>) -> Vec<Value> {
    let mut values = Vec::new(line.alloc());
    for number in 0..line.number() {
        line.put(&mut values, Value::new(Node::Int(i128::from(number))));
    }
    values
}

// As many characters.
fn characters(line: &mut Line<'_>) -> Vec<Value> {
    let mut values = Vec::new(line.alloc());
    for _number in 0..line.number() {
        line.put(&mut values, Value::new(Node::Char('a')));
    }
    values
}

fn time_log<R: Clock>(rt: &R, line: &mut Line<'_>, names: &Names) {
    let entries = reads(line);
    let began = Instant::now(rt).ok();
    let made = report_text(line.alloc(), &entries, true, b"result: ()\n", names);
    let taken = nanoseconds(rt, line, began);
    match made {
        Ok(bytes) => say_time(line, bytes.len(), taken),
        Err(_) => line.fall_short(),
    }
}

// As many entries, each of which reads a variable.
fn reads(line: &mut Line<'_>) -> EntryList {
    let mut entries = Vec::new(line.alloc());
    for number in 0..line.number() {
        line.put(&mut entries, Entry::new(Thread::Main, 2, read(number)));
    }
    EntryList::from_vec(entries)
}

fn read(number: u32) -> Deed {
    Deed::Read {
        var: VarRef {
            class: Name(0),
            name: Name(1),
        },
        value: Slot::Held(Value::new(Node::Int(i128::from(number)))),
    }
}
