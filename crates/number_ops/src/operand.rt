// Operands by their kinds.

ghost use Rattle.std.specs.Prelude.{◌≡◌};
ghost use Rattle.value_operators.specs.Numbers.{numbers_one, numbers_two, by_kind};

use crate::number::{binary_number, unary_number};
use crate::truth::{binary_truth, truth, unary_truth};
use vdm_kinds::{Operator, RunFault};
use vdm_values::{Node, Value};

/// What an operator gives of a number or a Boolean.
///
/// # Errors
///
/// `TypeFault` exactly where it is no operator of one operand that has a row here, or the operand is of another kind; else
/// `Overflow` exactly where the number would lie outside -2^127 to 2^127 - 1.
pub fn unary(operator: Operator, a: &Value) -> Result<Value, RunFault>
    ensures { result ≡ numbers_one operator a.now }
{
    match a.node() {
        Node::Int(m) => unary_number(operator, *m),
        Node::Bool(p) => unary_truth(operator, *p),
        _ => Err(RunFault::TypeFault),
    }
}

/// What an operator gives of two numbers, two Booleans, or, where it compares them, any two values.
///
/// # Errors
///
/// `TypeFault` exactly where it is no operator of two operands that has a row here, or an operand is of another kind; else
/// `DivideByZero` exactly where a divisor is 0, `ExponentRange` exactly where an exponent is negative, and `Overflow` exactly
/// where the number would lie outside -2^127 to 2^127 - 1.
pub fn binary(operator: Operator, a: &Value, b: &Value) -> Result<Value, RunFault>
    ensures { result ≡ numbers_two operator a.now b.now }
{
    match operator {
        Operator::Equal => Ok(truth(a == b)),
        Operator::NotEqual => Ok(truth(!(a == b))),
        _ => of_one_kind(operator, a, b),
    }
}

fn of_one_kind(operator: Operator, a: &Value, b: &Value) -> Result<Value, RunFault>
    ensures { result ≡ by_kind operator a.now b.now }
{
    match (a.node(), b.node()) {
        (Node::Int(m), Node::Int(n)) => binary_number(operator, *m, *n),
        (Node::Bool(p), Node::Bool(q)) => binary_truth(operator, *p, *q),
        _ => Err(RunFault::TypeFault),
    }
}
