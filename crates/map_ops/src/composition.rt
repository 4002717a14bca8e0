// What a map has at a key, and maps one after the other.

ghost use Rattle.std.specs.Prelude.{◌≡◌};
ghost use Rattle.std.specs.List.Sorted.{IsStrictlySortedBy};
ghost use Rattle.abstract_syntax.specs.ValueSets.{key_order};
ghost use Rattle.value_operators.specs.Members.{found as found_value};
ghost use Rattle.value_operators.specs.Outcomes.{Gives, on_map};
ghost use Rattle.value_operators.specs.Sequences.{there};
ghost use Rattle.value_operators.specs.Maps.{composed as composed_pairs};

use std::alloc::Global;
use value_results::{found, push_pair, sized};
use vdm_kinds::{Halt, RunFault};
use vdm_values::{Node, Value};

/// What the map has at the key.
pub(crate) fn look_up(alloc: Global, a: &Value, key: &Value) -> Result<Value, Halt<RunFault>>
    ensures { Gives result (on_map (λ ps. there (found_value ps key.now)) a.now) }
{
    match a.node() {
        Node::Map(pairs) => at(alloc, pairs.as_slice(), key),
        _ => Err(Halt::Of(RunFault::TypeFault)),
    }
}

fn at(alloc: Global, pairs: &[(Value, Value)], key: &Value) -> Result<Value, Halt<RunFault>>
    requires { IsStrictlySortedBy key_order pairs.now }
    ensures { Gives result (there (found_value pairs.now key.now)) }
{
    match found(pairs, key) {
        Some(value) => sized(value.copy(alloc)?),
        None => Err(Halt::Of(RunFault::NotInDomain)),
    }
}

/// First the second map, then the first.
pub(crate) fn composed(
    alloc: Global,
    a: &[(Value, Value)],
    b: &[(Value, Value)],
) -> Result<Value, Halt<RunFault>>
    requires { IsStrictlySortedBy key_order a.now × IsStrictlySortedBy key_order b.now }
    ensures { Gives result (composed_pairs a.now b.now) }
{
    let mut pairs = Vec::new(alloc);
    for pair in b {
        match found(a, &pair.1) {
            Some(value) => push_pair(alloc, &mut pairs, &pair.0, value)?,
            None => return Err(Halt::Of(RunFault::NotInDomain)),
        }
    }
    sized(Value::new(Node::Map(pairs)))
}
