// Results within the limits of size.

ghost use Rattle.abstract_syntax.specs.ValueSets.{set_value};
ghost use Rattle.value_operators.specs.Outcomes.{Gives, sized as sized_outcome};
ghost use Rattle.value_operators.specs.Maps.{joined};

use std::alloc::Global;
use vdm_kinds::{Halt, RunFault};
use vdm_sets::{map_from, set_from, within_limits};
use vdm_values::{PairList, Value, ValueList};

/// The value itself.
///
/// # Errors
///
/// `SizeLimit` exactly where it has more than 200,000 nodes or depth above 500.
pub fn sized(v: Value) -> Result<Value, Halt<RunFault>>
    ensures { Gives result (sized_outcome v) }
{
    within_limits(v)
}

/// The set of the items.
///
/// # Errors
///
/// `SizeLimit` exactly where it would be too large.
pub fn set_result(alloc: Global, items: Vec<Value>) -> Result<Value, Halt<RunFault>>
    ensures { Gives result (sized_outcome (set_value items.items)) }
{
    set_from(alloc, ValueList::from_vec(items))
}

/// The map of the pairs.
///
/// # Errors
///
/// `MapConflict` exactly where one key has two different values; else `SizeLimit` exactly where it would be too large.
pub fn map_result(alloc: Global, pairs: Vec<(Value, Value)>) -> Result<Value, Halt<RunFault>>
    ensures { Gives result (joined pairs.items) }
{
    map_from(alloc, PairList::from_vec(pairs))
}
