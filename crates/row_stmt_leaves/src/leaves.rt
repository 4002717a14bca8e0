// Writes what stands in statements and has no statement in it.

use expr_tree::{Bind, Defined, Expr, Pattern};
use row_notation::{say_expr, say_pattern, say_type};
use row_words::Line;
use vdm_kinds::Name;
use vdm_names::Names;
use vdm_tree::{Dcl, Local};

/// Writes a name.
pub fn say_name(line: &mut Line<'_>, names: &Names, name: Name) {
    line.say(names.text(name).unwrap_or(""));
}

/// Writes an expression, or `_` where it is left out.
pub fn say_given(line: &mut Line<'_>, names: &Names, given: &Option<Box<Expr>>) {
    match given {
        Some(tree) => say_expr(line, names, tree),
        None => line.say("_"),
    }
}

/// Writes a list of patterns.
pub fn say_patterns(line: &mut Line<'_>, names: &Names, list: &[Pattern]) {
    line.say("[");
    for (index, tree) in list.iter().enumerate() {
        say_comma(line, index);
        say_pattern(line, names, tree);
    }
    line.say("]");
}

/// Writes what stands before the item of this number.
pub fn say_comma(line: &mut Line<'_>, index: usize) {
    if index > 0 {
        line.say(", ");
    }
}

/// Writes patterns, and the set that they go over.
pub fn say_bind(line: &mut Line<'_>, names: &Names, bind: &Bind) {
    say_patterns(line, names, &bind.patterns);
    line.say(" in ");
    say_expr(line, names, &bind.set);
}

/// Writes the definitions of a `let`.
pub fn say_definitions(line: &mut Line<'_>, names: &Names, list: &[Defined]) {
    line.say("[");
    for (index, item) in list.iter().enumerate() {
        say_comma(line, index);
        say_definition(line, names, item);
    }
    line.say("]");
}

fn say_definition(line: &mut Line<'_>, names: &Names, item: &Defined) {
    say_pattern(line, names, &item.pattern);
    if let Some(declared) = &item.declared {
        line.say(": ");
        say_type(line, names, declared);
    }
    line.say(" = ");
    say_expr(line, names, &item.value);
}

/// Writes the local variables of a block: a list for each word `dcl`.
pub fn say_declared(line: &mut Line<'_>, names: &Names, list: &[Dcl]) {
    line.say("[");
    for (index, item) in list.iter().enumerate() {
        say_comma(line, index);
        say_locals(line, names, &item.locals);
    }
    line.say("]");
}

fn say_locals(line: &mut Line<'_>, names: &Names, list: &[Local]) {
    line.say("[");
    for (index, item) in list.iter().enumerate() {
        say_comma(line, index);
        say_local(line, names, item);
    }
    line.say("]");
}

fn say_local(line: &mut Line<'_>, names: &Names, item: &Local) {
    say_name(line, names, item.name);
    line.say(": ");
    say_type(line, names, &item.declared);
    if let Some(value) = &item.initial {
        line.say(" := ");
        say_expr(line, names, value);
    }
}
