// How many nodes a value has, and how deep it is.

ghost use Rattle.std.specs.Prelude.{◌≡◌, ◌+◌, min, max, IfOk, Err};
ghost use Rattle.abstract_syntax.specs.Values.{nodes_of, nodes_of_values, nodes_of_pairs, depth_of, depth_of_values, depth_of_pairs, value_trees, pair_trees};
ghost use Rattle.abstract_syntax.specs.ValueSets.{IsWithinLimits, IsTooLarge};
ghost use Rattle.vdm_values.specs.Tree.{tree_of};
ghost use Rattle.vdm_kinds.specs.declared.halt.Halt.{Halt};
ghost use Rattle.vdm_kinds.specs.declared.run_fault.RunFault.TheVariants.{SizeLimit};

use vdm_kinds::{Halt, RunFault};
use vdm_values::{Node, Value};

// The bounds of every value.
const MAX_NODES: u64 = 200000;

const MAX_DEPTH: u64 = 500;

/// How many nodes the value has, or 2^64 - 1 where there are more. It takes no memory.
#[cycle(nodes)]
pub fn nodes(v: &Value) -> u64
    ensures { result ≡ min (nodes_of v.now) 18446744073709551615 }
{
    match v.node() {
        Node::Token(inner) => nodes(inner).saturating_add(1),
        Node::Tuple(items) | Node::Seq(items) | Node::Set(items) => {
            nodes_of_items(items.as_slice()).saturating_add(1)
        }
        Node::Rec { fields, .. } => nodes_of_items(fields.as_slice()).saturating_add(1),
        Node::Map(pairs) => nodes_of_entries(pairs.as_slice()).saturating_add(1),
        _ => 1,
    }
}

#[cycle(nodes)]
fn nodes_of_items(items: &[Value]) -> u64
    ensures { result ≡ min (nodes_of_values (value_trees items.now)) 18446744073709551615 }
{
    let mut total: u64 = 0;
    for item in items {
        total = total.saturating_add(nodes(item));
    }
    total
}

#[cycle(nodes)]
fn nodes_of_entries(pairs: &[(Value, Value)]) -> u64
    ensures { result ≡ min (nodes_of_pairs (pair_trees pairs.now)) 18446744073709551615 }
{
    let mut total: u64 = 0;
    for (key, value) in pairs {
        total = total
            .saturating_add(nodes(key))
            .saturating_add(nodes(value));
    }
    total
}

/// How deep the value is, or 2^64 - 1 where it is deeper. It takes no memory.
#[cycle(depth)]
pub fn depth(v: &Value) -> u64
    ensures { result ≡ min (depth_of v.now) 18446744073709551615 }
{
    match v.node() {
        Node::Token(inner) => depth(inner).saturating_add(1),
        Node::Tuple(items) | Node::Seq(items) | Node::Set(items) => {
            depth_of_items(items.as_slice()).saturating_add(1)
        }
        Node::Rec { fields, .. } => depth_of_items(fields.as_slice()).saturating_add(1),
        Node::Map(pairs) => depth_of_entries(pairs.as_slice()).saturating_add(1),
        _ => 1,
    }
}

#[cycle(depth)]
fn depth_of_items(items: &[Value]) -> u64
    ensures { result ≡ min (depth_of_values (value_trees items.now)) 18446744073709551615 }
{
    let mut deepest: u64 = 0;
    for item in items {
        deepest = deepest.max(depth(item));
    }
    deepest
}

#[cycle(depth)]
fn depth_of_entries(pairs: &[(Value, Value)]) -> u64
    ensures { result ≡ min (depth_of_pairs (pair_trees pairs.now)) 18446744073709551615 }
{
    let mut deepest: u64 = 0;
    for (key, value) in pairs {
        deepest = deepest.max(depth(key)).max(depth(value));
    }
    deepest
}

/// The value itself, where it is within the limits of size.
///
/// # Errors
///
/// `SizeLimit` exactly where it has more than 200,000 nodes or depth above 500.
pub fn within_limits(v: Value) -> Result<Value, Halt<RunFault>>
    ensures made { IfOk result (λ w. (w ≡ v) × IsWithinLimits v) }
    ensures refused { (fault : RunFault) → result ≡ Err (Halt.Of fault) → (fault ≡ SizeLimit) × IsTooLarge v }
{
    if nodes(&v) <= MAX_NODES && depth(&v) <= MAX_DEPTH {
        Ok(v)
    } else {
        Err(Halt::Of(RunFault::SizeLimit))
    }
}
