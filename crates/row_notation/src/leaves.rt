// Writes names and literals.

use expr_tree::Literal;
use row_words::Line;
use vdm_kinds::{Name, NameAt, TypeName};
use vdm_names::Names;

// The text of a name.
pub(crate) fn say_name(line: &mut Line<'_>, names: &Names, name: Name) {
    line.say(names.text(name).unwrap_or(""));
}

/// Writes a name of a type, behind that of its class if it has one.
pub(crate) fn say_type_name(line: &mut Line<'_>, names: &Names, name: TypeName) {
    if let Some(class) = name.class {
        say_name(line, names, class);
        line.say("`");
    }
    say_name(line, names, name.name);
}

/// Writes names with a comma between each two.
pub(crate) fn say_names(line: &mut Line<'_>, names: &Names, list: &[NameAt]) {
    for (index, item) in list.iter().enumerate() {
        if index > 0 {
            line.say(", ");
        }
        say_name(line, names, item.name);
    }
}

/// Writes a literal: a character by its number, and a string by those of its characters.
pub(crate) fn say_literal(line: &mut Line<'_>, names: &Names, literal: &Literal) {
    match literal {
        Literal::Whole(number) => line.show_bare(number),
        Literal::Character(character) => {
            line.say("char(");
            line.say_number(u64::from(u32::from(*character)));
            line.say(")");
        }
        Literal::Text(characters) => say_characters(line, characters),
        Literal::Quote(name) => {
            line.say("<");
            say_name(line, names, *name);
            line.say(">");
        }
        Literal::Bool(truth) => line.say(if *truth { "true" } else { "false" }),
        Literal::Nil => line.say("nil"),
    }
}

fn say_characters(line: &mut Line<'_>, characters: &[char]) {
    line.say("text(");
    for (index, character) in characters.iter().enumerate() {
        line.say_blank(index);
        line.say_number(u64::from(u32::from(*character)));
    }
    line.say(")");
}
