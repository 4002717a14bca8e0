// Records that are made of the values of their fields.

ghost use Rattle.std.specs.Prelude.{◌≡◌, IfOk};
ghost use Rattle.spec_table.specs.Tables.{table_spec};
ghost use Rattle.node_meaning.specs.Needs.{Asker};
ghost use Rattle.node_meaning.specs.Records.{fields_of, record_made, record_with};
ghost use Rattle.eval_data.specs.Parts.{nest_of};
ghost use Rattle.eval_data.specs.Steps.{code_of};
ghost use Rattle.fit_steps.specs.Tests.{under};

use crate::made::record_with;
use crate::types::{fields_of, record_type};
use eval_data::{Nest, Step};
use spec_table::ClassTable;
use std::alloc::Global;
use vdm_kinds::{Name, OutOfMemory, Place, RunFault, TypeName};
use vdm_values::{Slot, Value};

/// The record of a type of the values of its fields, for the node at the place.
pub fn record_made<'t>(
    alloc: Global,
    table: &'t ClassTable,
    locals: &mut Vec<(Name, Slot)>,
    nest: Nest,
    scope: Option<Name>,
    type_name: TypeName,
    place: Place,
    values: Vec<Value>,
) -> Result<Step<'t>, OutOfMemory>
    ensures { IfOk result (λ s. (asker : Asker) → code_of (under (table_spec table.entry.now) asker) locals.new.items s ≡ record_made (table_spec table.entry.now) (nest_of nest) scope type_name place values.items locals.old.items) }
{
    let found = record_type(table, scope, type_name)?;
    match found {
        Some((class, name)) => { record_in(alloc, table, locals, nest, class, name, place, values) }
        None => Ok(Step::Fail(RunFault::Undefined, place)),
    }
}

fn record_in<'t>(
    alloc: Global,
    table: &'t ClassTable,
    locals: &mut Vec<(Name, Slot)>,
    nest: Nest,
    class: Name,
    name: Name,
    place: Place,
    values: Vec<Value>,
) -> Result<Step<'t>, OutOfMemory>
    ensures { IfOk result (λ s. (asker : Asker) → code_of (under (table_spec table.entry.now) asker) locals.new.items s ≡ record_with (table_spec table.entry.now) (nest_of nest) class name place (fields_of (table_spec table.entry.now) class name) values.items locals.old.items) }
{
    match fields_of(table, class, name) {
        Some(fields) => record_with(
            alloc, table, locals, nest, class, name, place, fields, values,
        ),
        None => Ok(Step::Fail(RunFault::Undefined, place)),
    }
}
