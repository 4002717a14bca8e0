// Writes definitions of types.

use crate::heads::say_head;
use row_notation::{say_expr, say_pattern, say_type};
use row_stmt_leaves::{say_comma, say_name};
use row_words::Line;
use vdm_names::Names;
use vdm_tree::{Field, TypeBody, TypeDef, TypeExpr, TypeInvariant};

/// Writes a type, or `_` where it is left out.
pub(crate) fn say_declared(line: &mut Line<'_>, names: &Names, declared: &Option<TypeExpr>) {
    match declared {
        Some(tree) => say_type(line, names, tree),
        None => line.say("_"),
    }
}

/// Writes a definition of a type: its name, what it is and its invariant.
pub(crate) fn say_type_def(line: &mut Line<'_>, names: &Names, item: &TypeDef) {
    say_head(line, names, item.access, "type", item.name);
    line.say(", ");
    say_body(line, names, &item.body);
    line.say(", ");
    say_invariant(line, names, &item.invariant);
    line.say(")");
}

fn say_body(line: &mut Line<'_>, names: &Names, body: &TypeBody) {
    match body {
        TypeBody::Same(tree) => say_type(line, names, tree),
        TypeBody::Fields(list) => say_fields(line, names, list),
    }
}

fn say_fields(line: &mut Line<'_>, names: &Names, list: &[Field]) {
    line.say("record([");
    for (index, item) in list.iter().enumerate() {
        say_comma(line, index);
        say_name(line, names, item.name);
        line.say(": ");
        say_type(line, names, &item.declared);
    }
    line.say("])");
}

fn say_invariant(line: &mut Line<'_>, names: &Names, invariant: &Option<TypeInvariant>) {
    match invariant {
        Some(inner) => {
            line.say("inv(");
            say_pattern(line, names, &inner.pattern);
            line.say(", ");
            say_expr(line, names, &inner.condition);
            line.say(")");
        }
        None => line.say("_"),
    }
}
