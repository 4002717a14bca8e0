// The rows of the table, by the operator.

ghost use Rattle.std.specs.List.Sorted.{IsStrictlySortedBy};
ghost use Rattle.abstract_syntax.specs.ValueSets.{key_order};
ghost use Rattle.value_operators.specs.Outcomes.{Gives, on_map, on_maps};
ghost use Rattle.value_operators.specs.Maps.{maps_one, maps_two, map_one, map_two};

use crate::composition::{composed, look_up};
use crate::joining::{joined, merged, overridden};
use crate::projection::{domain, inverse, range};
use crate::restriction::{kept_keys, kept_values, removed_keys, removed_values};
use std::alloc::Global;
use vdm_kinds::{Halt, Operator, RunFault};
use vdm_values::{Node, Value};

/// What an operator gives of a map, or of a set of maps.
///
/// # Errors
///
/// `TypeFault` exactly where it is no operator of one operand that has a row here, or the operand is of another kind; else
/// `MapConflict` exactly where a value to be inverted stands twice or a common key of maps to be merged has two values; else
/// `SizeLimit` exactly where the result would have more than 200,000 nodes or depth above 500.
pub fn unary(alloc: Global, operator: Operator, a: &Value) -> Result<Value, Halt<RunFault>>
    ensures { Gives result (maps_one operator a.now) }
{
    match operator {
        Operator::Merge => merged(alloc, a),
        _ => of_map(alloc, operator, a),
    }
}

/// What an operator gives of two maps, of a map and a set, or of a map and a key.
///
/// # Errors
///
/// `TypeFault` exactly where it is no operator of two operands that has a row here, or an operand is of another kind; else
/// `NotInDomain` exactly where what is looked up is no key of the map, `MapConflict` exactly where a common key has two values,
/// and `SizeLimit` exactly where the result would have more than 200,000 nodes or depth above 500.
pub fn binary(
    alloc: Global,
    operator: Operator,
    a: &Value,
    b: &Value,
) -> Result<Value, Halt<RunFault>>
    ensures { Gives result (maps_two operator a.now b.now) }
{
    match operator {
        Operator::LookUp => look_up(alloc, a, b),
        Operator::DomainRestriction => kept_keys(alloc, a, b),
        Operator::DomainRemoval => removed_keys(alloc, a, b),
        Operator::RangeRestriction => kept_values(alloc, b, a),
        Operator::RangeRemoval => removed_values(alloc, b, a),
        _ => of_maps(alloc, operator, a, b),
    }
}

fn of_map(alloc: Global, operator: Operator, a: &Value) -> Result<Value, Halt<RunFault>>
    ensures { Gives result (on_map (map_one operator) a.now) }
{
    match a.node() {
        Node::Map(pairs) => of_pairs(alloc, operator, pairs.as_slice()),
        _ => Err(Halt::Of(RunFault::TypeFault)),
    }
}

fn of_pairs(
    alloc: Global,
    operator: Operator,
    pairs: &[(Value, Value)],
) -> Result<Value, Halt<RunFault>>
    requires { IsStrictlySortedBy key_order pairs.now }
    ensures { Gives result (map_one operator pairs.now) }
{
    match operator {
        Operator::Domain => domain(alloc, pairs),
        Operator::Range => range(alloc, pairs),
        Operator::Inverse => inverse(alloc, pairs),
        _ => Err(Halt::Of(RunFault::TypeFault)),
    }
}

fn of_maps(alloc: Global, operator: Operator, a: &Value, b: &Value) -> Result<Value, Halt<RunFault>>
    ensures { Gives result (on_maps (map_two operator) a.now b.now) }
{
    match (a.node(), b.node()) {
        (Node::Map(a), Node::Map(b)) => of_two(alloc, operator, a.as_slice(), b.as_slice()),
        _ => Err(Halt::Of(RunFault::TypeFault)),
    }
}

fn of_two(
    alloc: Global,
    operator: Operator,
    a: &[(Value, Value)],
    b: &[(Value, Value)],
) -> Result<Value, Halt<RunFault>>
    requires { IsStrictlySortedBy key_order a.now × IsStrictlySortedBy key_order b.now }
    ensures { Gives result (map_two operator a.now b.now) }
{
    match operator {
        Operator::Override => overridden(alloc, a, b),
        Operator::MapUnion => joined(alloc, a, b),
        Operator::Composition => composed(alloc, a, b),
        _ => Err(Halt::Of(RunFault::TypeFault)),
    }
}
