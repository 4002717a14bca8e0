// What is left where one is chosen.

ghost use Rattle.std.specs.Prelude.{◌≡◌, ◌↔◌, ◌+◌, ◌++◌, [], IsTrue, ◌<◌, ◌≤◌, IfOk, MatchOption, take, drop, length, max, get_or};
ghost use Rattle.patterns.specs.Todos.{at};
ghost use Rattle.expr_tree.specs.View.{pattern_view, maplet_pattern_view};

use expr_tree::{MapletPattern, Pattern};
use std::alloc::Global;
use vdm_kinds::OutOfMemory;
use vdm_values::Value;

/// The values but for the one of this index.
pub(crate) fn without<'t>(
    alloc: Global,
    values: &[&'t Value],
    index: usize,
) -> Result<Vec<&'t Value>, OutOfMemory>
    ensures { IfOk result (λ left. left.items ≡ take index values.now ++ drop (index + 1) values.now) }
{
    let mut left = Vec::with_capacity(alloc, values.len())?;
    for (i, value) in values.iter().enumerate() {
        if i != index {
            left.push(*value)?;
        }
    }
    Ok(left)
}

/// The pairs but for the one of this index.
pub(crate) fn without_pair<'t>(
    alloc: Global,
    pairs: &[&'t (Value, Value)],
    index: usize,
) -> Result<Vec<&'t (Value, Value)>, OutOfMemory>
    ensures { IfOk result (λ left. left.items ≡ take index pairs.now ++ drop (index + 1) pairs.now) }
{
    let mut left = Vec::with_capacity(alloc, pairs.len())?;
    for (i, pair) in pairs.iter().enumerate() {
        if i != index {
            left.push(*pair)?;
        }
    }
    Ok(left)
}

/// The value of this index.
pub(crate) fn pick<'t>(values: &[&'t Value], index: usize) -> Option<&'t Value>
    ensures { MatchOption result (length (at values.now) ≤ index) (λ v. (index < length (at values.now)) × (v.now ≡ get_or (at values.now) index v.now)) }
{
    if index < values.len() {
        Some(values[index])
    } else {
        None
    }
}

/// The pair of this index.
pub(crate) fn pick_pair<'t>(
    pairs: &[&'t (Value, Value)],
    index: usize,
) -> Option<&'t (Value, Value)>
    ensures { MatchOption result (length (at pairs.now) ≤ index) (λ p. (index < length (at pairs.now)) × (p.now ≡ get_or (at pairs.now) index p.now)) }
{
    if index < pairs.len() {
        Some(pairs[index])
    } else {
        None
    }
}

/// Whether no item is left.
pub(crate) fn is_over(items: &[Value]) -> bool
    ensures { IsTrue result ↔ items.now ≡ [] }
{
    items.len() == 0
}

/// The patterns of a key and of its value.
pub(crate) fn both(maplet: &MapletPattern) -> (&Pattern, &Pattern)
    ensures { maplet_pattern_view maplet.now ≡ record { key = pattern_view result.0.now; value = pattern_view result.1.now } }
{
    (&maplet.key, &maplet.value)
}

/// The greater of two numbers.
pub(crate) fn greater(a: usize, b: usize) -> usize
    ensures { result ≡ max a b }
{
    if a < b { b } else { a }
}
