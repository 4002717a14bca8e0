// Keys and values in turn, as pairs.

ghost use Rattle.std.specs.Prelude.{◌≡◌, ◌<◌, ◌∷◌, [], IfOk, MatchOption, OnSome, length, reverse};
ghost use Rattle.node_meaning.specs.Strict.{pairs_in};

use std::alloc::Global;
use vdm_kinds::OutOfMemory;
use vdm_values::Value;

/// The pairs of keys and values in turn.
pub(crate) fn pairs_of(
    alloc: Global,
    values: Vec<Value>,
) -> Result<Vec<(Value, Value)>, OutOfMemory>
    ensures { IfOk result (λ pairs. pairs.items ≡ pairs_in values.items) }
{
    let mut values = values;
    let mut pairs = Vec::with_capacity(alloc, values.len() / 2)?;
    values.reverse();
    while let Some(pair) = taken_pair(&mut values) {
        pairs.push(pair)?;
    }
    Ok(pairs)
}

/// The first key and its value, which stand last.
fn taken_pair(values: &mut Vec<Value>) -> Option<(Value, Value)>
    ensures pair { MatchOption result (pairs_in (reverse values.old.items) ≡ []) (λ p. pairs_in (reverse values.old.items) ≡ p ∷ pairs_in (reverse values.new.items)) }
    ensures shorter { OnSome result (length values.new.items < length values.old.items) }
{
    let key = values.pop()?;
    let value = values.pop()?;
    Some((key, value))
}
