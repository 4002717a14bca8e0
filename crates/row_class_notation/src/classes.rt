// Writes specifications and classes.

use crate::blocks::say_block;
use crate::heads::say_list;
use row_stmt_leaves::{say_comma, say_name};
use row_words::Line;
use vdm_names::Names;
use vdm_tree::{Block, ClassDef, Spec};

/// Writes a specification: a list of its classes.
pub fn say_spec(line: &mut Line<'_>, names: &Names, spec: &Spec) {
    line.say("[");
    for (index, class) in spec.classes.iter().enumerate() {
        say_comma(line, index);
        say_class(line, names, class);
    }
    line.say("]");
}

// A class: its name, its superclasses and its blocks.
fn say_class(line: &mut Line<'_>, names: &Names, class: &ClassDef) {
    line.say("class(");
    say_name(line, names, class.name);
    line.say(", ");
    say_list(line, names, &class.superclasses);
    line.say(", ");
    say_blocks(line, names, &class.blocks);
    line.say(")");
}

fn say_blocks(line: &mut Line<'_>, names: &Names, blocks: &[Block]) {
    line.say("[");
    for (index, block) in blocks.iter().enumerate() {
        say_comma(line, index);
        say_block(line, names, block);
    }
    line.say("]");
}
