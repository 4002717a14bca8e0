// Writes functions and operations.

use crate::heads::say_head;
use crate::types::say_declared;
use row_notation::{say_expr, say_type};
use row_stmt_leaves::{say_comma, say_given, say_patterns};
use row_stmt_notation::say_stmt;
use row_words::Line;
use vdm_names::Names;
use vdm_tree::{Body, Expr, FunctionDef, OpDef, Stmt, TypeExpr};

/// Writes a function: its name, the types of its parameters and of its result, its patterns, its body, and what it requires,
/// ensures and is measured by.
pub(crate) fn say_function(line: &mut Line<'_>, names: &Names, item: &FunctionDef) {
    say_head(line, names, item.access, "function", item.name);
    say_parameters(line, names, &item.parameters);
    say_type(line, names, &item.result_type);
    line.say(", ");
    say_patterns(line, names, &item.patterns);
    line.say(", ");
    say_function_body(line, names, &item.body);
    say_condition(line, names, &item.pre);
    say_condition(line, names, &item.post);
    say_condition(line, names, &item.measure);
    line.say(")");
}

/// Writes an operation: its name, the types of its parameters and of its result, its patterns, its body, and what it requires
/// and ensures.
pub(crate) fn say_operation(line: &mut Line<'_>, names: &Names, item: &OpDef) {
    say_head(line, names, item.access, "operation", item.name);
    say_parameters(line, names, &item.parameters);
    say_declared(line, names, &item.result_type);
    line.say(", ");
    say_patterns(line, names, &item.patterns);
    line.say(", ");
    say_operation_body(line, names, &item.body);
    say_condition(line, names, &item.pre);
    say_condition(line, names, &item.post);
    line.say(")");
}

fn say_parameters(line: &mut Line<'_>, names: &Names, list: &[TypeExpr]) {
    line.say(", [");
    for (index, item) in list.iter().enumerate() {
        say_comma(line, index);
        say_type(line, names, item);
    }
    line.say("], ");
}

fn say_function_body(line: &mut Line<'_>, names: &Names, body: &Body<Box<Expr>>) {
    match body {
        Body::Written(tree) => say_expr(line, names, tree),
        Body::NotYetSpecified => line.say("not_yet_specified"),
        Body::SubclassResponsibility => line.say("subclass_responsibility"),
    }
}

fn say_operation_body(line: &mut Line<'_>, names: &Names, body: &Body<Box<Stmt>>) {
    match body {
        Body::Written(tree) => say_stmt(line, names, tree),
        Body::NotYetSpecified => line.say("not_yet_specified"),
        Body::SubclassResponsibility => line.say("subclass_responsibility"),
    }
}

fn say_condition(line: &mut Line<'_>, names: &Names, condition: &Option<Box<Expr>>) {
    line.say(", ");
    say_given(line, names, condition);
}
