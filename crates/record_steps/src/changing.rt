// Records of which some fields are changed.

ghost use Rattle.std.specs.Prelude.{◌≡◌, IfOk, [], ◌∷◌, MatchOption, map, option_map};
ghost use Rattle.expr_tree.specs.TypeDefView.{field_view};
ghost use Rattle.expr_tree.specs.View.{field_value_trees, field_value_view};
ghost use Rattle.spec_table.specs.Tables.{table_spec};
ghost use Rattle.node_meaning.specs.Needs.{Asker};
ghost use Rattle.node_meaning.specs.Records.{changed_record, field_names, fields_of, record_changed, tested_again};
ghost use Rattle.eval_data.specs.Parts.{nest_of};
ghost use Rattle.eval_data.specs.Steps.{code_of};
ghost use Rattle.fit_steps.specs.Tests.{under};

use crate::made::record_with;
use crate::placing::with_fields;
use crate::types::fields_of;
use eval_data::{Nest, Step};
use expr_tree::{Field, FieldValue};
use spec_table::ClassTable;
use std::alloc::Global;
use vdm_kinds::{Name, OutOfMemory, Place, RunFault};
use vdm_values::{Node, Slot, Value};

/// A record, which stands first of the values, with the others in the place of those of the fields that the changes name, for the
/// node at the place.
pub fn record_changed<'t>(
    alloc: Global,
    table: &'t ClassTable,
    locals: &mut Vec<(Name, Slot)>,
    nest: Nest,
    changes: &[FieldValue],
    place: Place,
    values: Vec<Value>,
) -> Result<Step<'t>, OutOfMemory>
    ensures { IfOk result (λ s. (asker : Asker) → code_of (under (table_spec table.entry.now) asker) locals.new.items s ≡ record_changed (table_spec table.entry.now) (nest_of nest) (field_names (field_value_trees (map field_value_view changes.now))) place values.items locals.old.items) }
{
    match first_taken(values) {
        Some((target, given)) => {
            changed_value(alloc, table, locals, nest, changes, place, target, given)
        }
        None => Ok(Step::Fail(RunFault::TypeFault, place)),
    }
}

/// The first of the values, and the others.
fn first_taken(values: Vec<Value>) -> Option<(Value, Vec<Value>)>
    ensures { MatchOption result (values.items ≡ []) (λ p. values.items ≡ p.0 ∷ p.1.items) }
{
    let mut others = values;
    if others.is_empty() {
        return None;
    }
    let first = others.remove(0);
    Some((first, others))
}

/// What is no record is of another type.
fn changed_value<'t>(
    alloc: Global,
    table: &'t ClassTable,
    locals: &mut Vec<(Name, Slot)>,
    nest: Nest,
    changes: &[FieldValue],
    place: Place,
    target: Value,
    given: Vec<Value>,
) -> Result<Step<'t>, OutOfMemory>
    ensures { IfOk result (λ s. (asker : Asker) → code_of (under (table_spec table.entry.now) asker) locals.new.items s ≡ record_changed (table_spec table.entry.now) (nest_of nest) (field_names (field_value_trees (map field_value_view changes.now))) place (target ∷ given.items) locals.old.items) }
{
    let node = target.into_node(alloc)?;
    match node {
        Node::Rec {
            class,
            name,
            fields,
        } => changed_record(
            alloc, table, locals, nest, class, name, place, changes, given, fields,
        ),
        _ => Ok(Step::Fail(RunFault::TypeFault, place)),
    }
}

fn changed_record<'t>(
    alloc: Global,
    table: &'t ClassTable,
    locals: &mut Vec<(Name, Slot)>,
    nest: Nest,
    class: Name,
    name: Name,
    place: Place,
    changes: &[FieldValue],
    given: Vec<Value>,
    values: Vec<Value>,
) -> Result<Step<'t>, OutOfMemory>
    ensures { IfOk result (λ s. (asker : Asker) → code_of (under (table_spec table.entry.now) asker) locals.new.items s ≡ changed_record (table_spec table.entry.now) (nest_of nest) class name place (fields_of (table_spec table.entry.now) class name) (field_names (field_value_trees (map field_value_view changes.now))) given.items values.items locals.old.items) }
{
    match fields_of(table, class, name) {
        Some(fields) => {
            let made = with_fields(fields, changes, given, values);
            tested_again(alloc, table, locals, nest, class, name, place, fields, made)
        }
        None => Ok(Step::Fail(RunFault::TypeFault, place)),
    }
}

fn tested_again<'t>(
    alloc: Global,
    table: &'t ClassTable,
    locals: &mut Vec<(Name, Slot)>,
    nest: Nest,
    class: Name,
    name: Name,
    place: Place,
    fields: &'t [Field],
    values: Option<Vec<Value>>,
) -> Result<Step<'t>, OutOfMemory>
    ensures { IfOk result (λ s. (asker : Asker) → code_of (under (table_spec table.entry.now) asker) locals.new.items s ≡ tested_again (table_spec table.entry.now) (nest_of nest) class name place (map field_view fields.entry.now) (option_map (λ vs. vs.items) values) locals.old.items) }
{
    match values {
        Some(values) => record_with(
            alloc, table, locals, nest, class, name, place, fields, values,
        ),
        None => Ok(Step::Fail(RunFault::TypeFault, place)),
    }
}
