// `take N`: the units that are left of N once a task took one. `refusal N` and `fault N`: the number and the name of a
// fault. `names TEXT ..`: the number and the text of each text's name, and how many names there are. `name N TEXT ..`:
// the text of the name of number N, once the texts have names.

use plans::take_unit;
use row_desk::Desk;
use row_words::{Line, run_fault, spec_kind};
use vdm_kinds::Name;

const NONE: &str = "none";

pub(crate) fn answer(line: &mut Line<'_>, word: &str) {
    match word {
        "take" => take(line),
        "refusal" => refusal(line),
        _ => fault(line),
    }
}

fn take(line: &mut Line<'_>) {
    match take_unit(line.whole()) {
        Some(left) => line.say_number(left),
        None => line.say(NONE),
    }
}

fn refusal(line: &mut Line<'_>) {
    match spec_kind(line.number()) {
        Some(kind) => line.say_fault(kind.number(), kind.name()),
        None => line.say(NONE),
    }
}

fn fault(line: &mut Line<'_>) {
    match run_fault(line.number()) {
        Some(fault) => line.say_fault(fault.number(), fault.name()),
        None => line.say(NONE),
    }
}

pub(crate) fn names(desk: &mut Desk, line: &mut Line<'_>) {
    for _text in 0..line.bound() {
        if line.is_over() {
            break;
        }
        if let Some(name) = desk.named(line) {
            say_named(desk, line, name);
        }
    }
    line.say("of ");
    line.say_count(desk.names.len());
}

fn say_named(desk: &Desk, line: &mut Line<'_>, name: Name) {
    line.say_number(u64::from(name.0));
    line.say(" ");
    line.say(desk.names.text(name).unwrap_or(""));
    line.say(", ");
}

pub(crate) fn name(desk: &mut Desk, line: &mut Line<'_>) {
    let name = Name(line.number());
    for _text in 0..line.bound() {
        if line.is_over() {
            break;
        }
        desk.named(line);
    }
    line.say(desk.names.text(name).unwrap_or(NONE));
}
