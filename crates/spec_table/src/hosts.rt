// The operations for which the host has rows.

ghost use Rattle.std.specs.Prelude.{◌≡◌};
ghost use Rattle.class_meaning.specs.Calls.{is_same_operation as same_operations, is_hosted};
ghost use Rattle.spec_table.specs.Tables.{table_spec, table_hosts};

use crate::table::ClassTable;
use vdm_kinds::OpRef;

impl ClassTable {
    /// The same table with other rows of the host, in place of those that it had.
    pub fn with_hosts(self, rows: Vec<OpRef>) -> ClassTable
        ensures spec { table_spec result ≡ table_spec self }
        ensures hosts { table_hosts result ≡ rows.items }
    {
        let mut table = self;
        table.hosts = rows;
        table
    }

    /// Whether the host has a row for the operation.
    pub fn is_hosted(&self, op: &OpRef) -> bool
        ensures { result ≡ is_hosted (table_hosts self.now) op.now }
    {
        is_among(op, self.hosts.as_slice())
    }
}

fn is_among(op: &OpRef, rows: &[OpRef]) -> bool
    ensures { result ≡ is_hosted rows.now op.now }
{
    for row in rows {
        if is_same_operation(op, row) {
            return true;
        }
    }
    false
}

fn is_same_operation(a: &OpRef, b: &OpRef) -> bool
    ensures { result ≡ same_operations a.now b.now }
{
    a.class.0 == b.class.0 && a.name.0 == b.name.0 && a.arity == b.arity
}
