// Copies of values that stand apart from one another.

ghost use Rattle.std.specs.Prelude.{◌≡◌, IfOk, map};

use std::alloc::Global;
use vdm_kinds::OutOfMemory;
use vdm_values::Value;

/// A copy of each value, in order.
pub fn copy_of(alloc: Global, values: &[&Value]) -> Result<Vec<Value>, OutOfMemory>
    ensures { IfOk result (λ copies. copies.items ≡ map (λ v. v.now) values.now) }
{
    let mut copies = Vec::with_capacity(alloc, values.len())?;
    for value in values {
        copies.push(value.copy(alloc)?)?;
    }
    Ok(copies)
}
