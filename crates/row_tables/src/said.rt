// How answers say what the table gives.

use row_words::Line;
use vdm_kinds::{Name, OpRef, VarRef};
use vdm_names::Names;

/// Says how many classes are written: all but `IO`.
pub(crate) fn say_written(line: &mut Line<'_>, classes: &[Name]) {
    line.say("classes ");
    line.say_count(classes.len().saturating_sub(1));
}

/// Says that there is nothing of what was asked for.
pub(crate) fn say_none(line: &mut Line<'_>) {
    line.say("none");
}

/// Says that what was asked about is no class.
pub(crate) fn say_no_class(line: &mut Line<'_>) {
    line.say("no class");
}

/// Says a name.
pub(crate) fn say_name(line: &mut Line<'_>, names: &Names, name: Name) {
    line.say(names.text(name).unwrap_or(""));
}

/// Says names with blanks between them, or `none`.
pub(crate) fn say_names(line: &mut Line<'_>, names: &Names, list: &[Name]) {
    if list.is_empty() {
        say_none(line);
    }
    for index in 0..list.len() {
        line.say_blank(index);
        say_name(line, names, list[index]);
    }
}

/// Says variables with blanks between them, or `none`.
pub(crate) fn say_variables(line: &mut Line<'_>, names: &Names, list: &[VarRef]) {
    if list.is_empty() {
        say_none(line);
    }
    for index in 0..list.len() {
        line.say_blank(index);
        say_member(line, names, list[index].class, list[index].name);
    }
}

/// Says a member as its class, a backquote and its name.
pub(crate) fn say_member(line: &mut Line<'_>, names: &Names, class: Name, name: Name) {
    say_name(line, names, class);
    line.say("`");
    say_name(line, names, name);
}

/// Says an operation or a function likewise, and the number of its parameters.
pub(crate) fn say_op(line: &mut Line<'_>, names: &Names, op: OpRef) {
    say_member(line, names, op.class, op.name);
    line.say("/");
    line.say_number(u64::from(op.arity));
}
