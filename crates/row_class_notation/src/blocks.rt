// Writes blocks of definitions: a word and a list.

use crate::heads::say_head;
use crate::routines::{say_function, say_operation};
use crate::threads::{say_clause, say_thread};
use crate::types::{say_declared, say_type_def};
use row_notation::{say_expr, say_type};
use row_stmt_leaves::{say_comma, say_given};
use row_words::Line;
use vdm_names::Names;
use vdm_tree::{Block, FunctionDef, OpDef, Sync, TypeDef, ValueDef, VarDef, VariableItem};

/// Writes a block.
pub(crate) fn say_block(line: &mut Line<'_>, names: &Names, block: &Block) {
    match block {
        Block::Types(list, _) => say_types(line, names, list),
        Block::Values(list, _) => say_values(line, names, list),
        Block::Variables(list, _) => say_variables(line, names, list),
        Block::Functions(list, _) => say_functions(line, names, list),
        Block::Operations(list, _) => say_operations(line, names, list),
        Block::Thread(thread, _) => say_thread(line, names, thread),
        Block::Sync(list, _) => say_clauses(line, names, list),
    }
}

fn say_types(line: &mut Line<'_>, names: &Names, list: &[TypeDef]) {
    line.say("types([");
    for (index, item) in list.iter().enumerate() {
        say_comma(line, index);
        say_type_def(line, names, item);
    }
    line.say("])");
}

fn say_values(line: &mut Line<'_>, names: &Names, list: &[ValueDef]) {
    line.say("values([");
    for (index, item) in list.iter().enumerate() {
        say_comma(line, index);
        say_value(line, names, item);
    }
    line.say("])");
}

fn say_value(line: &mut Line<'_>, names: &Names, item: &ValueDef) {
    say_head(line, names, item.access, "value", item.name);
    line.say(", ");
    say_declared(line, names, &item.declared);
    line.say(", ");
    say_expr(line, names, &item.value);
    line.say(")");
}

fn say_variables(line: &mut Line<'_>, names: &Names, list: &[VariableItem]) {
    line.say("variables([");
    for (index, item) in list.iter().enumerate() {
        say_comma(line, index);
        say_item(line, names, item);
    }
    line.say("])");
}

fn say_item(line: &mut Line<'_>, names: &Names, item: &VariableItem) {
    match item {
        VariableItem::Variable(variable) => say_variable(line, names, variable),
        VariableItem::Invariant(condition, _) => {
            line.say("inv(");
            say_expr(line, names, condition);
            line.say(")");
        }
    }
}

fn say_variable(line: &mut Line<'_>, names: &Names, item: &VarDef) {
    say_head(line, names, item.access, "variable", item.name);
    line.say(", ");
    say_type(line, names, &item.declared);
    line.say(", ");
    say_given(line, names, &item.initial);
    line.say(")");
}

fn say_functions(line: &mut Line<'_>, names: &Names, list: &[FunctionDef]) {
    line.say("functions([");
    for (index, item) in list.iter().enumerate() {
        say_comma(line, index);
        say_function(line, names, item);
    }
    line.say("])");
}

fn say_operations(line: &mut Line<'_>, names: &Names, list: &[OpDef]) {
    line.say("operations([");
    for (index, item) in list.iter().enumerate() {
        say_comma(line, index);
        say_operation(line, names, item);
    }
    line.say("])");
}

fn say_clauses(line: &mut Line<'_>, names: &Names, list: &[Sync]) {
    line.say("sync([");
    for (index, item) in list.iter().enumerate() {
        say_comma(line, index);
        say_clause(line, names, item);
    }
    line.say("])");
}
