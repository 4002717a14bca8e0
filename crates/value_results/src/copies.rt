// Copies of values at the end of lists.

ghost use Rattle.std.specs.Prelude.{◌≡◌, ◌++◌, ◌∷◌, [], OnOk};

use std::alloc::Global;
use vdm_kinds::OutOfMemory;
use vdm_values::Value;

/// Appends a copy of the value.
pub fn push_copy(alloc: Global, values: &mut Vec<Value>, value: &Value) -> Result<(), OutOfMemory>
    ensures { OnOk result (values.new.items ≡ values.old.items ++ value.now ∷ []) }
{
    values.push(value.copy(alloc)?)?;
    Ok(())
}

/// Appends copies of the values, in order.
pub fn push_copies(
    alloc: Global,
    values: &mut Vec<Value>,
    others: &[Value],
) -> Result<(), OutOfMemory>
    ensures { OnOk result (values.new.items ≡ values.old.items ++ others.now) }
{
    for other in others {
        push_copy(alloc, values, other)?;
    }
    Ok(())
}

/// Appends a pair of copies of the key and the value.
pub fn push_pair(
    alloc: Global,
    pairs: &mut Vec<(Value, Value)>,
    key: &Value,
    value: &Value,
) -> Result<(), OutOfMemory>
    ensures { OnOk result (pairs.new.items ≡ pairs.old.items ++ (key.now, value.now) ∷ []) }
{
    let key = key.copy(alloc)?;
    pairs.push((key, value.copy(alloc)?))?;
    Ok(())
}

/// Appends copies of the pairs, in order.
pub fn push_pairs(
    alloc: Global,
    pairs: &mut Vec<(Value, Value)>,
    others: &[(Value, Value)],
) -> Result<(), OutOfMemory>
    ensures { OnOk result (pairs.new.items ≡ pairs.old.items ++ others.now) }
{
    for other in others {
        push_pair(alloc, pairs, &other.0, &other.1)?;
    }
    Ok(())
}
