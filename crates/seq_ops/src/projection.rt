// How many items there are, their positions, and the set of them.

ghost use Rattle.std.specs.Prelude.{◌≡◌, ◌+ℤ◌, IfOk, pos, length as length_of};
ghost use Rattle.abstract_syntax.specs.Values.{number};
ghost use Rattle.abstract_syntax.specs.ValueSets.{set_value};
ghost use Rattle.value_operators.specs.Members.{numbers_from};
ghost use Rattle.value_operators.specs.Outcomes.{Gives, sized as sized_outcome};
ghost use Rattle.value_operators.specs.Sequences.{positions};

use std::alloc::Global;
use value_results::{push_copies, set_result, sized};
use vdm_kinds::{Halt, OutOfMemory, RunFault};
use vdm_values::{Node, Value};

/// How many items there are.
pub(crate) fn length(items: &[Value]) -> Value
    ensures { result ≡ number (pos (length_of items.now)) }
{
    Value::new(Node::Int(items.len() as i128))
}

/// The set of the positions.
pub(crate) fn indices(alloc: Global, items: &[Value]) -> Result<Value, Halt<RunFault>>
    ensures { Gives result (sized_outcome (positions items.now)) }
{
    let numbers = numbers(alloc, items.len())?;
    sized(Value::new(Node::Set(numbers)))
}

fn numbers(alloc: Global, count: usize) -> Result<Vec<Value>, OutOfMemory>
    ensures { IfOk result (λ numbers. numbers.items ≡ numbers_from (pos 1) count) }
{
    let mut numbers = Vec::with_capacity(alloc, count)?;
    for index in 0..count {
        numbers.push(position_of(index))?;
    }
    Ok(numbers)
}

/// The position of the item at an index, which is from 0.
pub(crate) fn position_of(index: usize) -> Value
    ensures { result ≡ number (pos 1 +ℤ pos index) }
{
    Value::new(Node::Int(index as i128 + 1))
}

/// The set of the items.
pub(crate) fn elements(alloc: Global, items: &[Value]) -> Result<Value, Halt<RunFault>>
    ensures { Gives result (sized_outcome (set_value items.now)) }
{
    let mut members = Vec::new(alloc);
    push_copies(alloc, &mut members, items)?;
    set_result(alloc, members)
}
