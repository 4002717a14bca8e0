// The rows of the table, by the operator.

ghost use Rattle.value_operators.specs.Outcomes.{Gives, on_sets};
ghost use Rattle.value_operators.specs.Sets.{sets_one, sets_two, set_two};
ghost use Rattle.std.specs.List.Sorted.{IsStrictlySortedBy};
ghost use Rattle.abstract_syntax.specs.ValueOrder.{value_order};

use crate::comparison::{in_set, is_subset, not_in_set};
use crate::distributed::{inter_of_all, union_of_all};
use crate::intervals::interval;
use crate::joining::{difference, inter, union};
use crate::plain::{card, given, truth};
use crate::powers::power_set;
use std::alloc::Global;
use vdm_kinds::{Halt, Operator, RunFault};
use vdm_values::{Node, Value};

/// What an operator gives of a number, a Boolean or a set.
///
/// # Errors
///
/// `TypeFault` exactly where it is no operator of one operand that has a row here, or the operand is of another kind; else
/// `EmptyOperand` exactly where the empty set is intersected, `Overflow` exactly where a number would lie outside -2^127 to
/// 2^127 - 1, and `SizeLimit` exactly where the result would have more than 200,000 nodes or depth above 500.
pub fn unary(alloc: Global, operator: Operator, a: &Value) -> Result<Value, Halt<RunFault>>
    ensures { Gives result (sets_one operator a.now) }
{
    match operator {
        Operator::Card => card(a),
        Operator::PowerSet => power_set(alloc, a),
        Operator::DistributedUnion => union_of_all(alloc, a),
        Operator::DistributedInter => inter_of_all(alloc, a),
        _ => given(number_ops::unary(operator, a)),
    }
}

/// What an operator gives of two numbers, two Booleans, two sets, a value and a set, or, where it compares them, any two values.
///
/// # Errors
///
/// `TypeFault` exactly where it is no operator of two operands that has a row here, or an operand is of another kind; else
/// `DivideByZero` exactly where a divisor is 0, `ExponentRange` exactly where an exponent is negative, `Overflow` exactly where
/// a number would lie outside -2^127 to 2^127 - 1, and `SizeLimit` exactly where the result would have more than 200,000 nodes
/// or depth above 500.
pub fn binary(
    alloc: Global,
    operator: Operator,
    a: &Value,
    b: &Value,
) -> Result<Value, Halt<RunFault>>
    ensures { Gives result (sets_two operator a.now b.now) }
{
    match operator {
        Operator::Union
        | Operator::Inter
        | Operator::Difference
        | Operator::Subset
        | Operator::ProperSubset => of_sets(alloc, operator, a, b),
        Operator::InSet => in_set(a, b),
        Operator::NotInSet => not_in_set(a, b),
        Operator::Interval => interval(alloc, a, b),
        _ => given(number_ops::binary(operator, a, b)),
    }
}

fn of_sets(alloc: Global, operator: Operator, a: &Value, b: &Value) -> Result<Value, Halt<RunFault>>
    ensures { Gives result (on_sets (set_two operator) a.now b.now) }
{
    match (a.node(), b.node()) {
        (Node::Set(a), Node::Set(b)) => of_members(alloc, operator, a.as_slice(), b.as_slice()),
        _ => Err(Halt::Of(RunFault::TypeFault)),
    }
}

fn of_members(
    alloc: Global,
    operator: Operator,
    a: &[Value],
    b: &[Value],
) -> Result<Value, Halt<RunFault>>
    requires { IsStrictlySortedBy value_order a.now × IsStrictlySortedBy value_order b.now }
    ensures { Gives result (set_two operator a.now b.now) }
{
    match operator {
        Operator::Union => union(alloc, a, b),
        Operator::Inter => inter(alloc, a, b),
        Operator::Difference => difference(alloc, a, b),
        Operator::Subset => Ok(truth(is_subset(a, b))),
        Operator::ProperSubset => Ok(truth(is_subset(a, b) && !is_subset(b, a))),
        _ => Err(Halt::Of(RunFault::TypeFault)),
    }
}
