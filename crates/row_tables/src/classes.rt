// `ancestors`, `op-names`, `layout` and `statics`, `number` and `class-place`, each of the class that stands next: the lists that
// the table has of it, its number, and where its name stands. `kind C A`: whether A is C or an ancestor of it. `visible FROM OWNER
// LEVEL`: whether in the class FROM, or with `-` in the expression, a member of OWNER may be named.

use crate::asked::{level_in, name_in, name_or_none};
use crate::said::{say_names, say_no_class, say_variables};
use row_words::Line;
use spec_table::ClassTable;
use vdm_kinds::{Access, Name};
use vdm_names::Names;
use vdm_tree::TypeNames;

/// Says what is asked of the class that stands next.
pub(crate) fn ask_class(names: &mut Names, line: &mut Line<'_>, asked: &str, table: &ClassTable) {
    let class = name_in(names, line);
    match table.number(class) {
        Some(_) => say_of_class(names, line, asked, table, class),
        None => say_no_class(line),
    }
}

fn say_of_class(names: &Names, line: &mut Line<'_>, asked: &str, table: &ClassTable, class: Name) {
    match asked {
        "ancestors" => say_names(line, names, table.ancestors(class)),
        "op-names" => say_names(line, names, table.op_names(class)),
        "layout" => say_variables(line, names, table.layout(class)),
        "statics" => say_variables(line, names, table.statics(class)),
        _ => line.refuse(),
    }
}

/// Says the number of the class that stands next.
pub(crate) fn ask_number(names: &mut Names, line: &mut Line<'_>, table: &ClassTable) {
    let class = name_in(names, line);
    match table.number(class) {
        Some(number) => line.say_count(number),
        None => say_no_class(line),
    }
}

/// Says where the name of the class stands that stands next.
pub(crate) fn ask_class_place(names: &mut Names, line: &mut Line<'_>, table: &ClassTable) {
    let class = name_in(names, line);
    match table.number(class) {
        Some(_) => line.show(&table.class(class).name_place),
        None => say_no_class(line),
    }
}

/// Says whether the second class that stands next is the first one or one of its ancestors.
pub(crate) fn ask_kind(names: &mut Names, line: &mut Line<'_>, table: &ClassTable) {
    let class = name_in(names, line);
    let ancestor = name_in(names, line);
    line.say_whether(table.is_kind_of(class, ancestor));
}

/// Says whether a member of the second class that stands next may be named in the first one.
pub(crate) fn ask_visible(names: &mut Names, line: &mut Line<'_>, table: &ClassTable) {
    let from = name_or_none(names, line);
    let owner = name_in(names, line);
    let access = Access {
        is_static: false,
        level: level_in(line),
    };
    match table.number(owner) {
        Some(_) => line.say_whether(table.visible(from, owner, access)),
        None => say_no_class(line),
    }
}
