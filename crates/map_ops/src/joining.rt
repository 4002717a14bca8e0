// Maps of the pairs of several maps.

ghost use Rattle.std.specs.Prelude.{◌≡◌, ◌++◌, not, IfOk};
ghost use Rattle.std.specs.List.{filter};
ghost use Rattle.std.specs.List.Sorted.{IsStrictlySortedBy};
ghost use Rattle.abstract_syntax.specs.ValueSets.{Entry, key_order};
ghost use Rattle.value_operators.specs.Members.{has as has_member};
ghost use Rattle.value_operators.specs.Outcomes.{Gives, sized as sized_outcome};
ghost use Rattle.value_operators.specs.Maps.{keys, joined as joined_pairs, overridden as overridden_by, on_set_of_maps, of_all_maps, merged as merged_maps};

use std::alloc::Global;
use value_results::{found, map_result, push_pair, push_pairs};
use vdm_kinds::{Halt, OutOfMemory, RunFault};
use vdm_values::{Node, Value};

/// The map of the pairs of both.
pub(crate) fn joined(
    alloc: Global,
    a: &[(Value, Value)],
    b: &[(Value, Value)],
) -> Result<Value, Halt<RunFault>>
    ensures { Gives result (joined_pairs (a.now ++ b.now)) }
{
    let mut pairs = Vec::new(alloc);
    push_pairs(alloc, &mut pairs, a)?;
    push_pairs(alloc, &mut pairs, b)?;
    map_result(alloc, pairs)
}

/// The map of the pairs of the second, and of those of the first whose keys it lacks.
pub(crate) fn overridden(
    alloc: Global,
    a: &[(Value, Value)],
    b: &[(Value, Value)],
) -> Result<Value, Halt<RunFault>>
    requires { IsStrictlySortedBy key_order a.now × IsStrictlySortedBy key_order b.now }
    ensures { Gives result (sized_outcome (overridden_by a.now b.now)) }
{
    let mut pairs = left_alone(alloc, a, b)?;
    push_pairs(alloc, &mut pairs, b)?;
    map_result(alloc, pairs)
}

// The pairs whose keys the others lack.
fn left_alone(
    alloc: Global,
    pairs: &[(Value, Value)],
    others: &[(Value, Value)],
) -> Result<Vec<(Value, Value)>, OutOfMemory>
    requires { IsStrictlySortedBy key_order others.now }
    ensures { IfOk result (λ kept. kept.items ≡ filter (λ (p : Entry). not (has_member (keys others.now) p.0)) pairs.now) }
{
    let mut kept = Vec::new(alloc);
    for pair in pairs {
        if !has_key(others, &pair.0) {
            push_pair(alloc, &mut kept, &pair.0, &pair.1)?;
        }
    }
    Ok(kept)
}

/// Whether one of the pairs has the key.
pub(crate) fn has_key(pairs: &[(Value, Value)], key: &Value) -> bool
    requires { IsStrictlySortedBy key_order pairs.now }
    ensures { result ≡ has_member (keys pairs.now) key.now }
{
    match found(pairs, key) {
        Some(_) => true,
        None => false,
    }
}

/// The map of the pairs of all maps.
pub(crate) fn merged(alloc: Global, a: &Value) -> Result<Value, Halt<RunFault>>
    ensures { Gives result (on_set_of_maps merged_maps a.now) }
{
    match a.node() {
        Node::Set(maps) => all_pairs(alloc, maps.as_slice()),
        _ => Err(Halt::Of(RunFault::TypeFault)),
    }
}

fn all_pairs(alloc: Global, maps: &[Value]) -> Result<Value, Halt<RunFault>>
    ensures { Gives result (of_all_maps merged_maps maps.now) }
{
    let mut pairs = Vec::new(alloc);
    for map in maps {
        let Node::Map(others) = map.node() else {
            return Err(Halt::Of(RunFault::TypeFault));
        };
        push_pairs(alloc, &mut pairs, others.as_slice())?;
    }
    map_result(alloc, pairs)
}
