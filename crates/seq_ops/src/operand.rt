// The rows of the table, by the operator.

ghost use Rattle.value_operators.specs.Outcomes.{Gives, on_sequence, on_sequences};
ghost use Rattle.value_operators.specs.Sequences.{sequences_one, sequences_two, sequence_one};

use crate::joining::{joined, joined_all};
use crate::position::{head, look_up, tail};
use crate::projection::{elements, indices, length};
use crate::replacing::overridden;
use std::alloc::Global;
use vdm_kinds::{Halt, Operator, RunFault};
use vdm_values::{Node, Value};

/// What an operator gives of a sequence.
///
/// # Errors
///
/// `TypeFault` exactly where it is no operator of one operand that has a row here, or the operand is of another kind; else
/// `EmptyOperand` exactly where the first item or the others are asked of the empty sequence; else `SizeLimit` exactly where the
/// result would have more than 200,000 nodes or depth above 500.
pub fn unary(alloc: Global, operator: Operator, a: &Value) -> Result<Value, Halt<RunFault>>
    ensures { Gives result (sequences_one operator a.now) }
{
    match operator {
        Operator::DistributedConcatenation => joined_all(alloc, a),
        _ => of_sequence(alloc, operator, a),
    }
}

/// What an operator gives of two sequences, a sequence and a position, or a sequence and a map.
///
/// # Errors
///
/// `TypeFault` exactly where it is no operator of two operands that has a row here, or an operand is of another kind; else
/// `NotInDomain` exactly where what is looked up, or a key of the map, is no position; else `SizeLimit` exactly where the result
/// would have more than 200,000 nodes or depth above 500.
pub fn binary(
    alloc: Global,
    operator: Operator,
    a: &Value,
    b: &Value,
) -> Result<Value, Halt<RunFault>>
    ensures { Gives result (sequences_two operator a.now b.now) }
{
    match operator {
        Operator::Concatenation => joined(alloc, a, b),
        Operator::LookUp => look_up(alloc, a, b),
        Operator::Override => overridden(alloc, a, b),
        _ => Err(Halt::Of(RunFault::TypeFault)),
    }
}

fn of_sequence(alloc: Global, operator: Operator, a: &Value) -> Result<Value, Halt<RunFault>>
    ensures { Gives result (on_sequence (sequence_one operator) a.now) }
{
    match a.node() {
        Node::Seq(items) => of_items(alloc, operator, items.as_slice()),
        _ => Err(Halt::Of(RunFault::TypeFault)),
    }
}

fn of_items(alloc: Global, operator: Operator, items: &[Value]) -> Result<Value, Halt<RunFault>>
    ensures { Gives result (sequence_one operator items.now) }
{
    match operator {
        Operator::Length => Ok(length(items)),
        Operator::Indices => indices(alloc, items),
        Operator::Elements => elements(alloc, items),
        Operator::Head => head(alloc, items),
        Operator::Tail => tail(alloc, items),
        _ => Err(Halt::Of(RunFault::TypeFault)),
    }
}
