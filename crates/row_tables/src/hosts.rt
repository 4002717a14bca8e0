// `hosted C f 1 K ..`: whether the operation is among those for which the host has rows, which are the K operations behind it.

use crate::asked::op_in;
use row_words::Line;
use spec_table::ClassTable;
use vdm_kinds::OpRef;
use vdm_names::Names;

/// Says whether the operation that stands next is one of those behind it.
pub(crate) fn ask_hosted(names: &mut Names, line: &mut Line<'_>, table: ClassTable) {
    let op = op_in(names, line);
    let rows = rows_in(names, line);
    let table = table.with_hosts(rows);
    line.say_whether(table.is_hosted(&op));
}

fn rows_in(names: &mut Names, line: &mut Line<'_>) -> Vec<OpRef> {
    let mut rows = Vec::new(line.alloc());
    for _row in 0..line.count() {
        let op = op_in(names, line);
        line.put(&mut rows, op);
    }
    rows
}
