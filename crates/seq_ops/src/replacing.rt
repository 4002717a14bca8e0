// Sequences in which items are replaced.

ghost use Rattle.std.specs.Prelude.{◌≡◌, ◌++◌, ◌∷◌, [], IfOk, OnOk, pos};
ghost use Rattle.std.specs.Option.{option_copied, unwrap_or};
ghost use Rattle.std.specs.List.{list_all};
ghost use Rattle.std.specs.List.Sorted.{IsStrictlySortedBy};
ghost use Rattle.abstract_syntax.specs.Values.{number as number_value};
ghost use Rattle.abstract_syntax.specs.ValueSets.{Entry, key_order};
ghost use Rattle.value_operators.specs.Outcomes.{Gives};
ghost use Rattle.value_operators.specs.Sequences.{on_sequence_and_map, overridden as overridden_by, replaced as replaced_by, is_position as is_position_of};

use crate::projection::position_of;
use std::alloc::Global;
use value_results::{found, push_copy, sized};
use vdm_kinds::{Halt, OutOfMemory, RunFault};
use vdm_values::{Node, Value};

/// The items, of which those at keys of the map are replaced by what it has there.
pub(crate) fn overridden(alloc: Global, a: &Value, b: &Value) -> Result<Value, Halt<RunFault>>
    ensures { Gives result (on_sequence_and_map overridden_by a.now b.now) }
{
    match (a.node(), b.node()) {
        (Node::Seq(items), Node::Map(pairs)) => {
            of_items(alloc, items.as_slice(), pairs.as_slice())
        }
        _ => Err(Halt::Of(RunFault::TypeFault)),
    }
}

fn of_items(
    alloc: Global,
    items: &[Value],
    pairs: &[(Value, Value)],
) -> Result<Value, Halt<RunFault>>
    requires { IsStrictlySortedBy key_order pairs.now }
    ensures { Gives result (overridden_by items.now pairs.now) }
{
    if !are_positions(pairs, items.len()) {
        return Err(Halt::Of(RunFault::NotInDomain));
    }
    let replaced = replaced(alloc, items, pairs)?;
    sized(Value::new(Node::Seq(replaced)))
}

fn are_positions(pairs: &[(Value, Value)], count: usize) -> bool
    ensures { result ≡ list_all (λ (p : Entry). is_position_of count p.0) pairs.now }
{
    for pair in pairs {
        if !is_position(&pair.0, count) {
            return false;
        }
    }
    true
}

fn is_position(key: &Value, count: usize) -> bool
    ensures { result ≡ is_position_of count key.now }
{
    match key.node() {
        Node::Int(number) => is_within(*number, count),
        _ => false,
    }
}

fn is_within(number: i128, count: usize) -> bool
    ensures { result ≡ is_position_of count (number_value number) }
{
    number >= 1 && number <= count as i128
}

fn replaced(
    alloc: Global,
    items: &[Value],
    pairs: &[(Value, Value)],
) -> Result<Vec<Value>, OutOfMemory>
    requires { IsStrictlySortedBy key_order pairs.now }
    ensures { IfOk result (λ replaced. replaced.items ≡ replaced_by pairs.now (pos 1) items.now) }
{
    let mut replaced = Vec::with_capacity(alloc, items.len())?;
    for index in 0..items.len() {
        let position = position_of(index);
        push_either(alloc, &mut replaced, found(pairs, &position), &items[index])?;
    }
    Ok(replaced)
}

// Appends a copy of the value, or of the item where there is none.
fn push_either(
    alloc: Global,
    replaced: &mut Vec<Value>,
    value: Option<&Value>,
    item: &Value,
) -> Result<(), OutOfMemory>
    ensures { OnOk result (replaced.new.items ≡ replaced.old.items ++ unwrap_or (option_copied value.entry) item.now ∷ []) }
{
    match value {
        Some(value) => push_copy(alloc, replaced, value),
        None => push_copy(alloc, replaced, item),
    }
}
