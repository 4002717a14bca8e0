// The keys of a map, its values, and the map from these to those.

ghost use Rattle.std.specs.Prelude.{◌≡◌, IfOk};
ghost use Rattle.std.specs.List.Sorted.{IsStrictlySortedBy};
ghost use Rattle.abstract_syntax.specs.ValueSets.{key_order, set_value};
ghost use Rattle.value_operators.specs.Outcomes.{Gives, sized as sized_outcome};
ghost use Rattle.value_operators.specs.Maps.{keys as keys_of, values as values_of, turned as turned_of, joined as joined_pairs};

use std::alloc::Global;
use value_results::{map_result, push_copy, push_pair, set_result, sized};
use vdm_kinds::{Halt, OutOfMemory, RunFault};
use vdm_values::{Node, Value};

/// The set of the keys.
pub(crate) fn domain(alloc: Global, pairs: &[(Value, Value)]) -> Result<Value, Halt<RunFault>>
    requires { IsStrictlySortedBy key_order pairs.now }
    ensures { Gives result (sized_outcome (set_value (keys_of pairs.now))) }
{
    let keys = keys(alloc, pairs)?;
    sized(Value::new(Node::Set(keys)))
}

/// The set of the values.
pub(crate) fn range(alloc: Global, pairs: &[(Value, Value)]) -> Result<Value, Halt<RunFault>>
    ensures { Gives result (sized_outcome (set_value (values_of pairs.now))) }
{
    let values = values(alloc, pairs)?;
    set_result(alloc, values)
}

/// The map from the values to their keys.
pub(crate) fn inverse(alloc: Global, pairs: &[(Value, Value)]) -> Result<Value, Halt<RunFault>>
    ensures { Gives result (joined_pairs (turned_of pairs.now)) }
{
    let turned = turned(alloc, pairs)?;
    map_result(alloc, turned)
}

fn keys(alloc: Global, pairs: &[(Value, Value)]) -> Result<Vec<Value>, OutOfMemory>
    ensures { IfOk result (λ keys. keys.items ≡ keys_of pairs.now) }
{
    let mut keys = Vec::with_capacity(alloc, pairs.len())?;
    for pair in pairs {
        push_copy(alloc, &mut keys, &pair.0)?;
    }
    Ok(keys)
}

fn values(alloc: Global, pairs: &[(Value, Value)]) -> Result<Vec<Value>, OutOfMemory>
    ensures { IfOk result (λ values. values.items ≡ values_of pairs.now) }
{
    let mut values = Vec::with_capacity(alloc, pairs.len())?;
    for pair in pairs {
        push_copy(alloc, &mut values, &pair.1)?;
    }
    Ok(values)
}

fn turned(alloc: Global, pairs: &[(Value, Value)]) -> Result<Vec<(Value, Value)>, OutOfMemory>
    ensures { IfOk result (λ turned. turned.items ≡ turned_of pairs.now) }
{
    let mut turned = Vec::with_capacity(alloc, pairs.len())?;
    for pair in pairs {
        push_pair(alloc, &mut turned, &pair.1, &pair.0)?;
    }
    Ok(turned)
}
