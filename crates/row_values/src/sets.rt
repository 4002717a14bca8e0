// `set V ..`: the set of the values. `map V ..`: the map of the pairs, which are tuples of two. `set-size` and `map-size`:
// nodes and levels of it. A refusal is told by its number and name. `insertion` and `insertion-of-pairs`: how many the
// plain program leaves, which inserts one after another, and whether the set or map has these.

use crate::values::say_size;
use plain_operators::rising_by_insertion;
use row_desk::{Desk, made_value, pairs_of};
use row_words::Line;
use vdm_kinds::{Halt, OutOfMemory, RunFault};
use vdm_sets::{map_from, set_from};
use vdm_values::{Node, PairList, Value, ValueList};

pub(crate) fn answer(desk: &mut Desk, line: &mut Line<'_>, word: &str) {
    let items = desk.all_values(line);
    match word {
        "set" => say_value(line, set_from(line.alloc(), ValueList::from_vec(items))),
        "set-size" => say_value_size(line, set_from(line.alloc(), ValueList::from_vec(items))),
        "insertion" => inserted(line, ValueList::from_vec(items)),
        _ => answer_of_pairs(line, word, items),
    }
    line.say_names(&desk.names);
}

fn answer_of_pairs(line: &mut Line<'_>, word: &str, items: Vec<Value>) {
    let pairs = PairList::from_vec(pairs_of(line, items));
    match word {
        "map" => say_value(line, map_from(line.alloc(), pairs)),
        "map-size" => say_value_size(line, map_from(line.alloc(), pairs)),
        _ => inserted_pairs(line, pairs),
    }
}

fn say_value(line: &mut Line<'_>, made: Result<Value, Halt<RunFault>>) {
    match made {
        Ok(value) => line.show(&value),
        Err(halt) => say_halt(line, halt),
    }
}

fn say_value_size(line: &mut Line<'_>, made: Result<Value, Halt<RunFault>>) {
    match made {
        Ok(value) => say_size(line, &value),
        Err(halt) => say_halt(line, halt),
    }
}

fn say_halt(line: &mut Line<'_>, halt: Halt<RunFault>) {
    match halt {
        Halt::Of(fault) => line.say_fault(fault.number(), fault.name()),
        Halt::OutOfMemory => line.fall_short(),
    }
}

fn inserted(line: &mut Line<'_>, items: ValueList) {
    let copy = line.made(
        items.copy(line.alloc()),
        ValueList::from_vec(Vec::new(line.alloc())),
    );
    let plain = plain_of(line, copy.into_vec());
    line.say_count(plain.len());
    let made = set_from(line.alloc(), items);
    let set = made_value(line, made);
    say_is_same(line, has_members(&set, &plain));
}

fn has_members(set: &Value, plain: &Vec<Value>) -> bool {
    matches!(set.node(), Node::Set(members) if members == plain)
}

fn inserted_pairs(line: &mut Line<'_>, pairs: PairList) {
    let copy = line.made(
        pairs.copy(line.alloc()),
        PairList::from_vec(Vec::new(line.alloc())),
    );
    let plain = plain_of(line, copy.into_vec());
    line.say_count(plain.len());
    let made = map_from(line.alloc(), pairs);
    let map = made_value(line, made);
    say_is_same(line, has_pairs(&map, &plain));
}

fn has_pairs(map: &Value, plain: &Vec<(Value, Value)>) -> bool {
    matches!(map.node(), Node::Map(pairs) if pairs == plain)
}

fn plain_of<T: Ord + Drop>(line: &mut Line<'_>, items: Vec<T>) -> Vec<T> {
    match rising_by_insertion(line.alloc(), items) {
        Ok(risen) => risen,
        Err(OutOfMemory) => {
            line.fall_short();
            Vec::new(line.alloc())
        }
    }
}

fn say_is_same(line: &mut Line<'_>, is_same: bool) {
    line.say(if is_same { ", the same" } else { ", others" });
}
