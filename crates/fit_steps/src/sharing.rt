// Values that are shared before they are tested.

ghost use Rattle.std.specs.Prelude.{◌≡◌, IfOk};

use std::alloc::Global;
use vdm_kinds::OutOfMemory;
use vdm_values::{Value, ValueList};

/// The values, each of which is shared, so that neither a test nor what is bound to a name takes memory for a copy.
pub fn all_shared(alloc: Global, values: Vec<Value>) -> Result<ValueList, OutOfMemory>
    ensures { IfOk result (λ list. list ≡ values.items) }
{
    let mut shared = Vec::new(alloc);
    for value in values {
        shared.push(value.share(alloc)?)?;
    }
    Ok(ValueList::from_vec(shared))
}
