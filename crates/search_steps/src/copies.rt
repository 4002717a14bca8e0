// A list several times.

ghost use Rattle.std.specs.Prelude.{◌≡◌, ◌++◌, IfOk, replicate};

use std::alloc::Global;
use vdm_kinds::OutOfMemory;
use vdm_values::ValueList;

/// Behind the lists, so many of the same values.
pub(crate) fn with_copies(
    alloc: Global,
    lists: Vec<ValueList>,
    count: usize,
    values: ValueList,
) -> Result<Vec<ValueList>, OutOfMemory>
    ensures { IfOk result (λ all. all.items ≡ lists.items ++ replicate count values) }
{
    if count == 0 {
        return Ok(lists);
    }
    let mut all = with_others(alloc, lists, count - 1, &values)?;
    all.push(values)?;
    Ok(all)
}

// Behind the lists, so many copies of the values.
fn with_others(
    alloc: Global,
    lists: Vec<ValueList>,
    count: usize,
    values: &ValueList,
) -> Result<Vec<ValueList>, OutOfMemory>
    ensures { IfOk result (λ all. all.items ≡ lists.items ++ replicate count values.now) }
{
    let mut all = lists;
    for copy in 0..count {
        all.push(values.copy(alloc)?)?;
    }
    Ok(all)
}
