// Values of which a part is changed.

ghost use Rattle.std.specs.Prelude.{◌≡◌, IfOk, [], ◌∷◌, map, option_map};
ghost use Rattle.vdm_kinds.specs.declared.place.Place.{Place as PlaceOf};
ghost use Rattle.abstract_syntax.specs.Classes.{SpecTree};
ghost use Rattle.abstract_syntax.specs.Expressions.{ExprTree};
ghost use Rattle.abstract_syntax.specs.Statements.{element_at, field_of};
ghost use Rattle.abstract_syntax.specs.Values.{ValueTree, map_of, no_pairs, one_pair, value_trees};
ghost use Rattle.value_operators.specs.Outcomes.{Gives};
ghost use Rattle.vdm_tree.specs.StmtView.{target_step_view};
ghost use Rattle.spec_table.specs.Tables.{table_spec};
ghost use Rattle.node_meaning.specs.Records.{field_value as field_value_of};
ghost use Rattle.stmt_meaning.specs.Targets.{and_then, changed_by, element_replaced, field_replaced, record_again, stepped_into};

use record_steps::{field_value, fields_of, with_field};
use spec_table::ClassTable;
use std::alloc::Global;
use strict_operators::binary;
use value_results::{push_copies, sized};
use vdm_kinds::{Halt, Name, Operator, OutOfMemory, RunFault};
use vdm_tree::TargetStep;
use vdm_values::{Node, Value};

/// The value with another one for the part to which the steps lead. The values are those of the indices, in order, and then the
/// one for the part.
///
/// # Errors
///
/// `TypeFault` where a step leads nowhere, and the faults of a look-up and of `++`.
#[cycle(changed)]
pub fn changed_by(
    alloc: Global,
    table: &ClassTable,
    steps: &[TargetStep],
    values: &[Value],
    old: &Value,
) -> Result<Value, Halt<RunFault>>
    ensures { Gives result (changed_by (table_spec table.now) (map target_step_view steps.now) values.now old.now) }
{
    let Some((step, others)) = steps.split_first() else {
        return last_value(alloc, values);
    };
    match step {
        TargetStep::Field(name, _, _) => in_field(alloc, table, *name, others, values, old),
        TargetStep::Element(_, _) => in_element(alloc, table, others, values, old),
    }
}

/// Where no step is left, the one value that is left.
fn last_value(alloc: Global, values: &[Value]) -> Result<Value, Halt<RunFault>>
    ensures { (spec : SpecTree) (old : ValueTree) → Gives result (changed_by spec [] values.now old) }
{
    match values {
        [value] => Ok(value.copy(alloc)?),
        _ => Err(Halt::Of(RunFault::TypeFault)),
    }
}

/// A field is changed. Only a record has one.
#[cycle(changed)]
fn in_field(
    alloc: Global,
    table: &ClassTable,
    name: Name,
    steps: &[TargetStep],
    values: &[Value],
    old: &Value,
) -> Result<Value, Halt<RunFault>>
    ensures { (name_place place : PlaceOf) → Gives result (changed_by (table_spec table.now) (field_of name name_place place ∷ map target_step_view steps.now) values.now old.now) }
{
    match old.node() {
        Node::Rec {
            class,
            name: type_name,
            fields,
        } => in_record(
            alloc, table, name, *class, *type_name, fields, steps, values,
        ),
        _ => Err(Halt::Of(RunFault::TypeFault)),
    }
}

/// The value of the field is changed, and stands then in its place.
#[cycle(changed)]
fn in_record(
    alloc: Global,
    table: &ClassTable,
    name: Name,
    class: Name,
    type_name: Name,
    fields: &Vec<Value>,
    steps: &[TargetStep],
    values: &[Value],
) -> Result<Value, Halt<RunFault>>
    ensures { Gives result (and_then (and_then (field_value_of (table_spec table.now) name class type_name (value_trees fields.now.items)) (changed_by (table_spec table.now) (map target_step_view steps.now) values.now)) (field_replaced (table_spec table.now) name class type_name (value_trees fields.now.items))) }
{
    let fields = fields.as_slice();
    let old = field_value(alloc, table, name, class, type_name, fields)?;
    let new = changed_by(alloc, table, steps, values, &old)?;
    field_replaced(alloc, table, name, class, type_name, fields, new)
}

/// The record of the fields with another value in that of the name.
fn field_replaced(
    alloc: Global,
    table: &ClassTable,
    name: Name,
    class: Name,
    type_name: Name,
    fields: &[Value],
    value: Value,
) -> Result<Value, Halt<RunFault>>
    ensures { Gives result (field_replaced (table_spec table.now) name class type_name (value_trees fields.now) value) }
{
    let Some(declared) = fields_of(table, class, type_name) else {
        return Err(Halt::Of(RunFault::TypeFault));
    };
    let mut values = Vec::new(alloc);
    push_copies(alloc, &mut values, fields)?;
    record_again(class, type_name, with_field(name, value, declared, values))
}

/// The record of these fields, where there are some.
fn record_again(
    class: Name,
    name: Name,
    fields: Option<Vec<Value>>,
) -> Result<Value, Halt<RunFault>>
    ensures { Gives result (record_again class name (option_map (λ vs. vs.items) fields)) }
{
    match fields {
        Some(fields) => sized(Value::new(Node::Rec {
            class,
            name,
            fields,
        })),
        None => Err(Halt::Of(RunFault::TypeFault)),
    }
}

/// What stands at an index is changed.
#[cycle(changed)]
fn in_element(
    alloc: Global,
    table: &ClassTable,
    steps: &[TargetStep],
    values: &[Value],
    old: &Value,
) -> Result<Value, Halt<RunFault>>
    ensures { (index : ExprTree) (place : PlaceOf) → Gives result (changed_by (table_spec table.now) (element_at index place ∷ map target_step_view steps.now) values.now old.now) }
{
    let Some((index, others)) = values.split_first() else {
        return Err(Halt::Of(RunFault::TypeFault));
    };
    let new = new_element(alloc, table, steps, others, old, index)?;
    element_replaced(alloc, old, index, new)
}

/// What is to stand at the index. Only where further steps lead into it, something has to stand there already.
#[cycle(changed)]
fn new_element(
    alloc: Global,
    table: &ClassTable,
    steps: &[TargetStep],
    values: &[Value],
    old: &Value,
    index: &Value,
) -> Result<Value, Halt<RunFault>>
    ensures { Gives result (and_then (stepped_into (map target_step_view steps.now) old.now index.now) (changed_by (table_spec table.now) (map target_step_view steps.now) values.now)) }
{
    if steps.is_empty() {
        return last_value(alloc, values);
    }
    let held = binary(alloc, Operator::LookUp, old, index)?;
    changed_by(alloc, table, steps, values, &held)
}

/// The map or the sequence with another value at the index.
fn element_replaced(
    alloc: Global,
    old: &Value,
    index: &Value,
    value: Value,
) -> Result<Value, Halt<RunFault>>
    ensures { Gives result (element_replaced old.now index.now value) }
{
    let change = one_pair(alloc, index, value)?;
    binary(alloc, Operator::Override, old, &change)
}

/// The map of one pair.
fn one_pair(alloc: Global, key: &Value, value: Value) -> Result<Value, OutOfMemory>
    ensures { IfOk result (λ m. m ≡ map_of (one_pair key.now value no_pairs)) }
{
    let key = key.copy(alloc)?;
    let mut pairs = Vec::new(alloc);
    pairs.push((key, value))?;
    Ok(Value::new(Node::Map(pairs)))
}
