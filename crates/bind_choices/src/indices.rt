// Indices into several lists, one for each.

ghost use Rattle.std.specs.Prelude.{◌≡◌, IfOk, map};
ghost use Rattle.std.specs.List.{list_all};
ghost use Rattle.bind_choices.specs.Choices.{AreIndices, choice_at, choices_behind, choices_left, has_values};

use std::alloc::Global;
use vdm_kinds::OutOfMemory;
use vdm_values::{Value, ValueList};

/// Whether no list is empty.
pub(crate) fn all_have_values(lists: &[ValueList]) -> bool
    ensures { result ≡ list_all has_values lists.now }
{
    lists.iter().all(|list| !list.is_empty())
}

/// The value of each list at its index.
pub(crate) fn values_at<'t>(
    alloc: Global,
    lists: &'t [ValueList],
    indices: &[usize],
) -> Result<Vec<&'t Value>, OutOfMemory>
    requires { AreIndices lists.now indices.now }
    ensures { IfOk result (λ values. map (λ v. v.now) values.items ≡ choice_at lists.now indices.now) }
{
    let mut values = Vec::with_capacity(alloc, lists.len())?;
    for (list, index) in lists.iter().zip(indices) {
        values.push(&list.as_slice()[*index])?;
    }
    Ok(values)
}

/// Moves the indices on to those of the choice behind, and says whether there is one. The last goes on; where it is at the end of its
/// list, it begins anew, and the one before it goes on.
pub(crate) fn step(lists: &[ValueList], indices: &mut [usize]) -> bool
    requires { AreIndices lists.now indices.old }
    ensures stand { AreIndices lists.now indices.new }
    ensures behind { choices_behind lists.now indices.old ≡ choices_left lists.now indices.new result }
{
    for place in (0..indices.len()).rev() {
        let count = lists[place].len();
        let next = indices[place] + 1;
        if next < count {
            indices[place] = next;
            return true;
        }
        indices[place] = 0;
    }
    false
}
