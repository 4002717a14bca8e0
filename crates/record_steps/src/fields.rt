// What a field of a record has.

ghost use Rattle.std.specs.Prelude.{Ok, Err, MatchOption};
ghost use Rattle.vdm_kinds.specs.declared.run_fault.RunFault.TheVariants.{TypeFault};
ghost use Rattle.abstract_syntax.specs.Values.{value_trees};
ghost use Rattle.value_operators.specs.Outcomes.{Gives};
ghost use Rattle.spec_table.specs.Tables.{table_spec};
ghost use Rattle.node_meaning.specs.Records.{field_value};

use crate::placing::field_in;
use crate::types::fields_of;
use spec_table::ClassTable;
use std::alloc::Global;
use vdm_kinds::{Halt, Name, RunFault};
use vdm_values::Value;

/// The value of a field of a record of the type of this class and name, with these values.
///
/// # Errors
///
/// `TypeFault` where it has no such field.
pub fn field_value(
    alloc: Global,
    table: &ClassTable,
    name: Name,
    class: Name,
    type_name: Name,
    values: &[Value],
) -> Result<Value, Halt<RunFault>>
    ensures { Gives result (field_value (table_spec table.now) name class type_name (value_trees values.now)) }
{
    match fields_of(table, class, type_name) {
        Some(fields) => copied(alloc, field_in(name, fields, values)),
        None => Err(Halt::Of(RunFault::TypeFault)),
    }
}

fn copied(alloc: Global, found: Option<&Value>) -> Result<Value, Halt<RunFault>>
    ensures { MatchOption found.entry (Gives result (Err TypeFault)) (λ v. Gives result (Ok v.now)) }
{
    match found {
        Some(value) => Ok(value.copy(alloc)?),
        None => Err(Halt::Of(RunFault::TypeFault)),
    }
}
