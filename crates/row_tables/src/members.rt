// `find-op C f 1` and `find-fn`, `find-value C v` and `find-var`: the member that a name means in the class C, `several` or `none`.
// `find-type C D T`: the type that T means in C behind the name of the class D and a backquote, or with `-` alone. `reached FROM C f
// 1`: the operation that a call through an object of the class C reaches from the class FROM, or with `-` from the expression.

use crate::asked::{name_in, name_or_none, op_in};
use crate::said::{say_member, say_no_class, say_none, say_op};
use class_meaning::{OpFound, VarFound};
use row_words::Line;
use spec_table::ClassTable;
use vdm_kinds::{Name, OpRef, VarRef};
use vdm_names::Names;
use vdm_tree::TypeNames;

/// Says the operation or function that stands next as its class finds it.
pub(crate) fn ask_op(names: &mut Names, line: &mut Line<'_>, asked: &str, table: &ClassTable) {
    let op = op_in(names, line);
    match table.number(op.class) {
        Some(_) => say_op_found(line, names, op_found(asked, table, op)),
        None => say_no_class(line),
    }
}

fn op_found(asked: &str, table: &ClassTable, op: OpRef) -> OpFound {
    match asked {
        "find-op" => table.find_op(op.class, op.name, op.arity),
        _ => table.find_fn(op.class, op.name, op.arity),
    }
}

fn say_op_found(line: &mut Line<'_>, names: &Names, found: OpFound) {
    match found {
        OpFound::One(op) => say_op(line, names, op),
        OpFound::Several => line.say("several"),
        OpFound::None => say_none(line),
    }
}

/// Says the value or variable that stands next as its class finds it.
pub(crate) fn ask_named(names: &mut Names, line: &mut Line<'_>, asked: &str, table: &ClassTable) {
    let class = name_in(names, line);
    let name = name_in(names, line);
    match table.number(class) {
        Some(_) => say_var_found(line, names, var_found(asked, table, VarRef { class, name })),
        None => say_no_class(line),
    }
}

fn var_found(asked: &str, table: &ClassTable, member: VarRef) -> VarFound {
    match asked {
        "find-value" => table.find_value(member.class, member.name),
        _ => table.find_var(member.class, member.name),
    }
}

fn say_var_found(line: &mut Line<'_>, names: &Names, found: VarFound) {
    match found {
        VarFound::One(member) => say_member(line, names, member.class, member.name),
        VarFound::Several => line.say("several"),
        VarFound::None => say_none(line),
    }
}

/// Says which type is named by what stands next.
pub(crate) fn ask_type(names: &mut Names, line: &mut Line<'_>, table: &ClassTable) {
    let scope = name_in(names, line);
    let class = name_or_none(names, line);
    let name = name_in(names, line);
    match table.type_def(scope, class, name) {
        Some(found) => say_member(line, names, found.class, found.name),
        None => say_none(line),
    }
}

/// Says which operation a call reaches.
pub(crate) fn ask_reached(names: &mut Names, line: &mut Line<'_>, table: &ClassTable) {
    let from = name_or_none(names, line);
    let op = op_in(names, line);
    match table.number(op.class) {
        Some(_) => say_reached(line, names, table, from, op),
        None => say_no_class(line),
    }
}

fn say_reached(
    line: &mut Line<'_>,
    names: &Names,
    table: &ClassTable,
    from: Option<Name>,
    op: OpRef,
) {
    match table.reached(from, op.class, op.name, op.arity) {
        Some(reached) => say_op(line, names, reached),
        None => say_none(line),
    }
}
