// What stands behind a tree, or in its place.

use row_words::Line;
use vdm_kinds::{Halt, Name, SpecFault};
use vdm_names::Names;

/// How many names there are before any text.
const BUILT_IN: usize = 3;

/// Says why there is no tree.
pub fn say_halt(line: &mut Line<'_>, halt: Halt<SpecFault>) {
    match halt {
        Halt::Of(fault) => line.say_refusal(fault),
        Halt::OutOfMemory => line.fall_short(),
    }
}

/// Says the number of the lexeme behind a tree, and the names that it has.
pub fn say_behind(line: &mut Line<'_>, names: &Names, next: usize) {
    line.say(" before ");
    line.say_count(next);
    say_own_names(line, names);
}

/// Says the names that a text has, in its order.
pub fn say_own_names(line: &mut Line<'_>, names: &Names) {
    for number in BUILT_IN..names.len() {
        line.say(if number == BUILT_IN { " with " } else { " " });
        if let Ok(number) = u32::try_from(number) {
            line.say(names.text(Name(number)).unwrap_or(""));
        }
    }
}
