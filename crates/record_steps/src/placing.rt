// Values by the places of the fields that they belong to.

ghost use Rattle.std.specs.Prelude.{◌≡◌, List, [], Some, Ok, Err, MatchOption, map, option_map};
ghost use Rattle.vdm_kinds.specs.declared.run_fault.RunFault.TheVariants.{TypeFault};
ghost use Rattle.abstract_syntax.specs.Classes.{FieldTree, is_same_name as same_names};
ghost use Rattle.expr_tree.specs.TypeDefView.{field_view};
ghost use Rattle.expr_tree.specs.View.{field_value_trees, field_value_view};
ghost use Rattle.node_meaning.specs.Records.{field_in, field_names, with_field, with_fields_named};
ghost use Rattle.record_steps.specs.Places.{place_from, value_at, with_value};

use expr_tree::{Field, FieldValue};
use vdm_kinds::Name;
use vdm_values::Value;

/// The value that stands where the first field of the name does.
pub(crate) fn field_in<'v>(name: Name, fields: &[Field], values: &'v [Value]) -> Option<&'v Value>
    ensures { MatchOption result (field_in name (map field_view fields.now) values.now ≡ Err TypeFault) (λ v. field_in name (map field_view fields.now) values.now ≡ Ok v.now) }
{
    match place_of(name, fields) {
        Some(place) => value_at(place, values),
        None => None,
    }
}

fn value_at(place: usize, values: &[Value]) -> Option<&Value>
    ensures { MatchOption result (value_at (Some place) values.now ≡ Err TypeFault) (λ v. value_at (Some place) values.now ≡ Ok v.now) }
{
    if place >= values.len() {
        return None;
    }
    Some(&values[place])
}

/// The values of fields with those that are given in the places of the changes, one after the other. None where there is no such
/// field, or another number of changes.
pub(crate) fn with_fields(
    fields: &[Field],
    changes: &[FieldValue],
    given: Vec<Value>,
    values: Vec<Value>,
) -> Option<Vec<Value>>
    ensures { option_map (λ vs. vs.items) result ≡ with_fields_named (map field_view fields.now) (field_names (field_value_trees (map field_value_view changes.now))) given.items values.items }
{
    let mut values = values;
    let mut left = changes;
    for value in given {
        let [change, others @ ..] = left else {
            return None;
        };
        values = with_field(change.name, value, fields, values)?;
        left = others;
    }
    where_none(left, values)
}

/// The values, where no changes are left.
fn where_none(left: &[FieldValue], values: Vec<Value>) -> Option<Vec<Value>>
    ensures { (fields : List FieldTree) → option_map (λ vs. vs.items) result ≡ with_fields_named fields (field_names (field_value_trees (map field_value_view left.now))) [] values.items }
{
    match left {
        [] => Some(values),
        [_, ..] => None,
    }
}

/// The values with another one where the first field of the name stands. None where there is no such field.
pub fn with_field(
    name: Name,
    value: Value,
    fields: &[Field],
    values: Vec<Value>,
) -> Option<Vec<Value>>
    ensures { option_map (λ vs. vs.items) result ≡ with_field name value (map field_view fields.now) values.items }
{
    match place_of(name, fields) {
        Some(place) => with_value(place, value, values),
        None => None,
    }
}

/// The values with another one at the place, where there is one.
fn with_value(place: usize, value: Value, values: Vec<Value>) -> Option<Vec<Value>>
    ensures { option_map (λ vs. vs.items) result ≡ with_value value (Some place) values.items }
{
    let mut values = values;
    if place >= values.len() {
        return None;
    }
    values[place] = value;
    Some(values)
}

/// Where the first field of the name stands.
fn place_of(name: Name, fields: &[Field]) -> Option<usize>
    ensures { result ≡ place_from name 0 (map field_view fields.now) }
{
    for place in 0..fields.len() {
        if is_same_name(name, fields[place].name) {
            return Some(place);
        }
    }
    None
}

fn is_same_name(a: Name, b: Name) -> bool
    ensures { result ≡ same_names a b }
{
    a.0 == b.0
}
