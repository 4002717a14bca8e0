// Writes what definitions begin with, and lists of them.

use row_stmt_leaves::{say_comma, say_name};
use row_words::Line;
use vdm_kinds::{Access, Level, Name, NameAt};
use vdm_names::Names;

/// Writes the access of a definition, its word and its name.
pub(crate) fn say_head(line: &mut Line<'_>, names: &Names, access: Access, word: &str, name: Name) {
    if access.is_static {
        line.say("static ");
    }
    line.say(match access.level {
        Level::Private => "private ",
        Level::Protected => "protected ",
        Level::Public => "public ",
    });
    line.say(word);
    line.say("(");
    say_name(line, names, name);
}

/// Writes a list of names.
pub(crate) fn say_list(line: &mut Line<'_>, names: &Names, list: &[NameAt]) {
    line.say("[");
    for (index, item) in list.iter().enumerate() {
        say_comma(line, index);
        say_name(line, names, item.name);
    }
    line.say("]");
}
