// Maps as values.

ghost use Rattle.std.specs.Prelude.{◌≡◌, ◌⊎◌, ◌↔◌, IfOk, Err, IsTrue};
ghost use Rattle.std.specs.List.Sorted.{IsStrictlySortedBy};
ghost use Rattle.abstract_syntax.specs.ValueSets.{map_value, pair_order, HasConflict, IsWithinLimits, IsTooLarge};
ghost use Rattle.abstract_syntax.specs.Rising.{rising};
ghost use Rattle.vdm_kinds.specs.declared.halt.Halt.{Halt};
ghost use Rattle.vdm_kinds.specs.declared.run_fault.RunFault.TheVariants.{MapConflict, SizeLimit};

use crate::size::within_limits;
use std::alloc::Global;
use vdm_kinds::{Halt, OutOfMemory, RunFault};
use vdm_values::{Node, PairList, Value};

/// The map of the pairs: each once, in the canonical order of the keys.
///
/// # Errors
///
/// `MapConflict` exactly where one key has two different values; else `SizeLimit` exactly where the map would have more than 200,000
/// nodes or depth above 500.
pub fn map_from(alloc: Global, pairs: PairList) -> Result<Value, Halt<RunFault>>
    ensures made { IfOk result (λ v. (v ≡ map_value pairs) × (HasConflict pairs → ⊥) × IsWithinLimits v) }
    ensures refused { (fault : RunFault) → result ≡ Err (Halt.Of fault) → ((fault ≡ MapConflict) × HasConflict pairs) ⊎ ((fault ≡ SizeLimit) × (HasConflict pairs → ⊥) × IsTooLarge (map_value pairs)) }
{
    let pairs = rising_pairs(alloc, pairs.into_vec())?;
    if has_conflict(pairs.as_slice()) {
        return Err(Halt::Of(RunFault::MapConflict));
    }
    within_limits(Value::new(Node::Map(pairs)))
}

// The pairs by key and then by value, each once.
fn rising_pairs(
    alloc: Global,
    mut pairs: Vec<(Value, Value)>,
) -> Result<Vec<(Value, Value)>, OutOfMemory>
    ensures { IfOk result (λ risen. risen.items ≡ rising pair_order pairs.items) }
{
    pairs.as_mut_slice().sort(alloc)?;
    pairs.dedup();
    Ok(pairs)
}

// Whether two neighbours have one key.
fn has_conflict(pairs: &[(Value, Value)]) -> bool
    requires { IsStrictlySortedBy pair_order pairs.now }
    ensures { IsTrue result ↔ HasConflict pairs.now }
{
    for i in 1..pairs.len() {
        if pairs[i - 1].0 == pairs[i].0 {
            return true;
        }
    }
    false
}
