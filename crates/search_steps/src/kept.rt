// Values of choices that are collected.

ghost use Rattle.std.specs.Prelude.{◌≡◌, ◌++◌, [], IfOk, get_or, map};

use bind_choices::Choices;
use std::alloc::Global;
use vdm_kinds::OutOfMemory;
use vdm_values::Value;

/// Behind the values, those of the next choice.
pub(crate) fn with_choice(
    alloc: Global,
    values: Vec<Value>,
    choices: &Choices,
) -> Result<Vec<Value>, OutOfMemory>
    ensures { IfOk result (λ all. all.items ≡ values.items ++ get_or choices.now 0 []) }
{
    match choices.next(alloc)? {
        Some(choice) => with_copies(alloc, values, choice.as_slice()),
        None => Ok(values),
    }
}

// Behind the values, copies of these.
fn with_copies(
    alloc: Global,
    values: Vec<Value>,
    more: &[&Value],
) -> Result<Vec<Value>, OutOfMemory>
    ensures { IfOk result (λ all. all.items ≡ values.items ++ map (λ v. v.now) more.now) }
{
    let mut all = values;
    for value in more {
        all.push(value.copy(alloc)?)?;
    }
    Ok(all)
}
