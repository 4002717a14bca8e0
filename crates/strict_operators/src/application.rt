// Each operator is that of one topic.

ghost use Rattle.value_operators.specs.Outcomes.{Gives};
ghost use Rattle.value_operators.specs.Operators.{applied_one, applied_two, by_left_operand};

use std::alloc::Global;
use vdm_kinds::{Halt, Operator, RunFault};
use vdm_values::{Node, Value};

/// What an operator gives of its one operand.
///
/// # Errors
///
/// The fault of its row: `TypeFault` exactly where the operand is of another kind, and for an operator of two operands.
pub fn unary(alloc: Global, operator: Operator, a: &Value) -> Result<Value, Halt<RunFault>>
    ensures { Gives result (applied_one operator a.now) }
{
    match operator {
        Operator::Length
        | Operator::Indices
        | Operator::Elements
        | Operator::DistributedConcatenation
        | Operator::Concatenation
        | Operator::Head
        | Operator::Tail => seq_ops::unary(alloc, operator, a),
        Operator::Domain
        | Operator::Range
        | Operator::DomainRestriction
        | Operator::DomainRemoval
        | Operator::RangeRestriction
        | Operator::RangeRemoval
        | Operator::MapUnion
        | Operator::Merge
        | Operator::Inverse
        | Operator::Composition => map_ops::unary(alloc, operator, a),
        Operator::LookUp | Operator::Override => Err(Halt::Of(RunFault::TypeFault)),
        _ => set_ops::unary(alloc, operator, a),
    }
}

/// What an operator gives of its two operands. A look-up and `++` are of sequences where the left operand is one, else of maps.
///
/// # Errors
///
/// The fault of its row: `TypeFault` exactly where an operand is of another kind, and for an operator of one operand or three.
pub fn binary(
    alloc: Global,
    operator: Operator,
    a: &Value,
    b: &Value,
) -> Result<Value, Halt<RunFault>>
    ensures { Gives result (applied_two operator a.now b.now) }
{
    match operator {
        Operator::Length
        | Operator::Indices
        | Operator::Elements
        | Operator::DistributedConcatenation
        | Operator::Concatenation
        | Operator::Head
        | Operator::Tail => seq_ops::binary(alloc, operator, a, b),
        Operator::Domain
        | Operator::Range
        | Operator::DomainRestriction
        | Operator::DomainRemoval
        | Operator::RangeRestriction
        | Operator::RangeRemoval
        | Operator::MapUnion
        | Operator::Merge
        | Operator::Inverse
        | Operator::Composition => map_ops::binary(alloc, operator, a, b),
        Operator::LookUp | Operator::Override => by_left(alloc, operator, a, b),
        _ => set_ops::binary(alloc, operator, a, b),
    }
}

fn by_left(alloc: Global, operator: Operator, a: &Value, b: &Value) -> Result<Value, Halt<RunFault>>
    ensures { Gives result (by_left_operand operator a.now b.now) }
{
    match a.node() {
        Node::Seq(_) => seq_ops::binary(alloc, operator, a, b),
        _ => map_ops::binary(alloc, operator, a, b),
    }
}
