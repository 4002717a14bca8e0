// What is made of the values of all parts of a node.

ghost use Rattle.std.specs.Prelude.{◌≡◌};
ghost use Rattle.std.specs.Option.{option_copied};
ghost use Rattle.abstract_syntax.specs.Values.{token as token_of};
ghost use Rattle.value_operators.specs.Maps.{joined};
ghost use Rattle.value_operators.specs.Operators.{applied_one, applied_two};
ghost use Rattle.value_operators.specs.Outcomes.{Gives, sized as sized_outcome};
ghost use Rattle.value_operators.specs.Sequences.{at_position, subsequence};
ghost use Rattle.node_meaning.specs.Strict.{made_of, of_one, of_two, of_three, pairs_in, there, component};
ghost use Rattle.eval_data.specs.Parts.{strict_of};

use crate::pairs::pairs_of;
use eval_data::Strict;
use seq_ops::part;
use std::alloc::Global;
use strict_operators::{binary, unary};
use value_results::{map_result, set_result, sized};
use vdm_kinds::{Halt, Operator, RunFault};
use vdm_values::{Node, Value};

/// What is made of the values.
///
/// # Errors
///
/// The fault of what is made; `TypeFault` where there are too few values for it, or too many.
pub fn made_of(alloc: Global, what: Strict, values: Vec<Value>) -> Result<Value, Halt<RunFault>>
    ensures { Gives result (made_of (strict_of what) values.items) }
{
    match what {
        Strict::OneOperand(operator) => of_operand(alloc, operator, values.as_slice()),
        Strict::TwoOperands(operator) => of_operands(alloc, operator, values.as_slice()),
        Strict::Set => set_result(alloc, values),
        Strict::Sequence => sized(Value::new(Node::Seq(values))),
        Strict::Tuple => sized(Value::new(Node::Tuple(values))),
        Strict::Map => map_of(alloc, values),
        Strict::Token => token(alloc, values.as_slice()),
        Strict::Subsequence => subsequence(alloc, values.as_slice()),
        Strict::Component(number) => component(alloc, number, values.as_slice()),
    }
}

fn of_operand(alloc: Global, operator: Operator, values: &[Value]) -> Result<Value, Halt<RunFault>>
    ensures { Gives result (of_one (applied_one operator) values.now) }
{
    match values {
        [a] => unary(alloc, operator, a),
        _ => Err(Halt::Of(RunFault::TypeFault)),
    }
}

fn of_operands(alloc: Global, operator: Operator, values: &[Value]) -> Result<Value, Halt<RunFault>>
    ensures { Gives result (of_two (applied_two operator) values.now) }
{
    match values {
        [a, b] => binary(alloc, operator, a, b),
        _ => Err(Halt::Of(RunFault::TypeFault)),
    }
}

/// The map of keys and values in turn.
fn map_of(alloc: Global, values: Vec<Value>) -> Result<Value, Halt<RunFault>>
    ensures { Gives result (joined (pairs_in values.items)) }
{
    let pairs = pairs_of(alloc, values)?;
    map_result(alloc, pairs)
}

fn token(alloc: Global, values: &[Value]) -> Result<Value, Halt<RunFault>>
    ensures { Gives result (of_one (λ a. sized_outcome (token_of a)) values.now) }
{
    match values {
        [a] => token_with(alloc, a),
        _ => Err(Halt::Of(RunFault::TypeFault)),
    }
}

fn token_with(alloc: Global, a: &Value) -> Result<Value, Halt<RunFault>>
    ensures { Gives result (sized_outcome (token_of a.now)) }
{
    let inner = Box::new(alloc, a.copy(alloc)?)?;
    sized(Value::new(Node::Token(inner)))
}

fn subsequence(alloc: Global, values: &[Value]) -> Result<Value, Halt<RunFault>>
    ensures { Gives result (of_three subsequence values.now) }
{
    match values {
        [items, from, to] => part(alloc, items, from, to),
        _ => Err(Halt::Of(RunFault::TypeFault)),
    }
}

fn component(alloc: Global, number: i128, values: &[Value]) -> Result<Value, Halt<RunFault>>
    ensures { Gives result (of_one (component number) values.now) }
{
    match values {
        [a] => component_in(alloc, number, a),
        _ => Err(Halt::Of(RunFault::TypeFault)),
    }
}

fn component_in(alloc: Global, number: i128, a: &Value) -> Result<Value, Halt<RunFault>>
    ensures { Gives result (component number a.now) }
{
    match a.node() {
        Node::Tuple(items) => component_at(alloc, number, items.as_slice()),
        _ => Err(Halt::Of(RunFault::TypeFault)),
    }
}

fn component_at(alloc: Global, number: i128, items: &[Value]) -> Result<Value, Halt<RunFault>>
    ensures { Gives result (there (at_position items.now number)) }
{
    match item_at(items, number) {
        Some(item) => Ok(item.copy(alloc)?),
        None => Err(Halt::Of(RunFault::TypeFault)),
    }
}

fn item_at(items: &[Value], position: i128) -> Option<&Value>
    ensures { option_copied result ≡ at_position items.now position }
{
    if position < 1 || position > items.len() as i128 {
        return None;
    }
    Some(&items[(position - 1) as usize])
}
