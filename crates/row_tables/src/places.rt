// `op-place C f 1` and `fn-place`, `value-place C v` and `var-place`: where the definition begins that the class C itself has, or
// `none`.

use crate::asked::{name_in, op_in};
use crate::said::say_none;
use row_words::Line;
use spec_table::ClassTable;
use vdm_kinds::{OpRef, Place, VarRef};
use vdm_names::Names;

/// Says where the operation or function begins that stands next.
pub(crate) fn ask_op_place(
    names: &mut Names,
    line: &mut Line<'_>,
    asked: &str,
    table: &ClassTable,
) {
    let op = op_in(names, line);
    let place = match asked {
        "op-place" => operation_place(table, op),
        _ => function_place(table, op),
    };
    say_place(line, place);
}

fn operation_place(table: &ClassTable, op: OpRef) -> Option<Place> {
    let found = table.operation(&op)?;
    Some(found.place)
}

fn function_place(table: &ClassTable, op: OpRef) -> Option<Place> {
    let found = table.function(&op)?;
    Some(found.place)
}

/// Says where the value or variable begins that stands next.
pub(crate) fn ask_named_place(
    names: &mut Names,
    line: &mut Line<'_>,
    asked: &str,
    table: &ClassTable,
) {
    let class = name_in(names, line);
    let name = name_in(names, line);
    let place = match asked {
        "value-place" => value_place(table, VarRef { class, name }),
        _ => variable_place(table, VarRef { class, name }),
    };
    say_place(line, place);
}

fn value_place(table: &ClassTable, member: VarRef) -> Option<Place> {
    let found = table.value(&member)?;
    Some(found.place)
}

fn variable_place(table: &ClassTable, member: VarRef) -> Option<Place> {
    let found = table.variable(&member)?;
    Some(found.place)
}

fn say_place(line: &mut Line<'_>, place: Option<Place>) {
    match place {
        Some(place) => line.show(&place),
        None => say_none(line),
    }
}
