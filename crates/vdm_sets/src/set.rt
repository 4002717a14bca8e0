// Sets as values.

ghost use Rattle.std.specs.Prelude.{◌≡◌, IfOk, Err};
ghost use Rattle.abstract_syntax.specs.ValueSets.{set_value, IsWithinLimits, IsTooLarge};
ghost use Rattle.abstract_syntax.specs.Rising.{rising};
ghost use Rattle.abstract_syntax.specs.ValueOrder.{value_order};
ghost use Rattle.vdm_kinds.specs.declared.halt.Halt.{Halt};
ghost use Rattle.vdm_kinds.specs.declared.run_fault.RunFault.TheVariants.{SizeLimit};

use crate::size::within_limits;
use std::alloc::Global;
use vdm_kinds::{Halt, OutOfMemory, RunFault};
use vdm_values::{Node, Value, ValueList};

/// The set of the items: each once, in the canonical order.
///
/// # Errors
///
/// `SizeLimit` exactly where the set would have more than 200,000 nodes or depth above 500.
pub fn set_from(alloc: Global, items: ValueList) -> Result<Value, Halt<RunFault>>
    ensures made { IfOk result (λ v. (v ≡ set_value items) × IsWithinLimits v) }
    ensures refused { (fault : RunFault) → result ≡ Err (Halt.Of fault) → (fault ≡ SizeLimit) × IsTooLarge (set_value items) }
{
    let values = rising_values(alloc, items.into_vec())?;
    within_limits(Value::new(Node::Set(values)))
}

// The values in the canonical order, each once.
fn rising_values(alloc: Global, mut values: Vec<Value>) -> Result<Vec<Value>, OutOfMemory>
    ensures { IfOk result (λ risen. risen.items ≡ rising value_order values.items) }
{
    values.as_mut_slice().sort(alloc)?;
    values.dedup();
    Ok(values)
}
