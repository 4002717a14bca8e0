// `list V ..`, `pairs V ..` of tuples of two, `slots S ..`: a list made, copied, compared and read. How many it has by `len`,
// whether it is empty, equals its copy and equals the list of none, how many its slice has, and then what is in it.

use row_desk::{Desk, made_value, pairs_of};
use row_words::Line;
use std::mem;
use vdm_kinds::OutOfMemory;
use vdm_sets::map_from;
use vdm_values::{Node, PairList, Slot, SlotList, Value, ValueList};

pub(crate) fn answer(desk: &mut Desk, line: &mut Line<'_>, word: &str) {
    match word {
        "list" => list(line, ValueList::from_vec(desk.all_values(line))),
        "pairs" => {
            let pairs = pairs_of(line, desk.all_values(line));
            pair_list(line, PairList::from_vec(pairs));
        }
        _ => {
            let slots = mem::replace(&mut desk.slots, Vec::new(line.alloc()));
            slot_list(line, SlotList::from_vec(slots));
        }
    }
    line.say_names(&desk.names);
}

fn list(line: &mut Line<'_>, list: ValueList) {
    say_length(line, list.len(), list.is_empty());
    say_copied(line, &list, list.copy(line.alloc()));
    say_none(line, list == ValueList::from_vec(Vec::new(line.alloc())));
    say_slice(line, list.as_slice().len());
    line.show(&Value::new(Node::Seq(list.into_vec())));
}

fn pair_list(line: &mut Line<'_>, list: PairList) {
    say_length(line, list.len(), list.is_empty());
    say_copied(line, &list, list.copy(line.alloc()));
    say_none(line, list == PairList::from_vec(Vec::new(line.alloc())));
    say_slice(line, list.as_slice().len());
    let made = map_from(line.alloc(), list);
    let map = made_value(line, made);
    line.show(&map);
}

fn slot_list(line: &mut Line<'_>, list: SlotList) {
    say_length(line, list.len(), list.is_empty());
    say_copied(line, &list, list.copy(line.alloc()));
    say_none(line, list == SlotList::from_vec(Vec::new(line.alloc())));
    say_slice(line, list.as_slice().len());
    say_slots(line, &list.into_vec());
}

fn say_length(line: &mut Line<'_>, count: usize, is_empty: bool) {
    line.say_count(count);
    line.say(if is_empty { ", empty" } else { "" });
}

fn say_copied<T: PartialEq + Drop>(line: &mut Line<'_>, list: &T, copy: Result<T, OutOfMemory>) {
    match copy {
        Ok(copy) => line.say(if copy == *list {
            ", as its copy"
        } else {
            ", not as its copy"
        }),
        Err(OutOfMemory) => line.fall_short(),
    }
}

fn say_none(line: &mut Line<'_>, is_none: bool) {
    line.say(if is_none { ", as none" } else { "" });
}

fn say_slice(line: &mut Line<'_>, length: usize) {
    line.say(": ");
    line.say_count(length);
    line.say(" ");
}

fn say_slots(line: &mut Line<'_>, slots: &[Slot]) {
    line.say("[");
    for slot in slots {
        match slot.copy(line.alloc()) {
            Ok(copy) => line.say(if copy == *slot { " " } else { "" }),
            Err(OutOfMemory) => line.fall_short(),
        }
        line.show(slot);
    }
    line.say("]");
}
