// Numbers.

ghost use Rattle.std.specs.Prelude.{◌≡◌, Ok, pos, neg_ℤ, unsigned_abs, ◌+ℤ◌, ◌-ℤ◌, ◌*ℤ◌};
ghost use Rattle.value_operators.specs.Numbers.{number_one, number_two, in_range};

use crate::division::{modulus, quotient, remainder};
use crate::power::power;
use crate::truth::truth;
use vdm_kinds::{Operator, RunFault};
use vdm_values::{Node, Value};

/// What an operator gives of a number.
pub(crate) fn unary_number(operator: Operator, m: i128) -> Result<Value, RunFault>
    ensures { result ≡ number_one operator m }
{
    match operator {
        Operator::Positive => Ok(number(m)),
        Operator::Negative => negated(m),
        Operator::Absolute => absolute(m),
        _ => Err(RunFault::TypeFault),
    }
}

/// What an operator gives of two numbers.
pub(crate) fn binary_number(operator: Operator, m: i128, n: i128) -> Result<Value, RunFault>
    ensures { result ≡ number_two operator m n }
{
    match operator {
        Operator::Plus => sum(m, n),
        Operator::Minus => less(m, n),
        Operator::Times => product(m, n),
        Operator::Div => quotient(m, n),
        Operator::Rem => remainder(m, n),
        Operator::Mod => modulus(m, n),
        Operator::Exponent => power(m, n),
        Operator::Less => Ok(truth(m < n)),
        Operator::LessEqual => Ok(truth(m <= n)),
        Operator::Greater => Ok(truth(m > n)),
        Operator::GreaterEqual => Ok(truth(m >= n)),
        _ => Err(RunFault::TypeFault),
    }
}

/// A number as a value.
pub(crate) fn number(m: i128) -> Value
    ensures { in_range m ≡ Ok result }
{
    Value::new(Node::Int(m))
}

fn negated(m: i128) -> Result<Value, RunFault>
    ensures { result ≡ in_range (neg_ℤ m) }
{
    match m.checked_neg() {
        Some(negated) => Ok(number(negated)),
        None => Err(RunFault::Overflow),
    }
}

fn absolute(m: i128) -> Result<Value, RunFault>
    ensures { result ≡ in_range (pos (unsigned_abs m)) }
{
    match m.checked_abs() {
        Some(size) => Ok(number(size)),
        None => Err(RunFault::Overflow),
    }
}

/// The sum of two numbers.
pub(crate) fn sum(m: i128, n: i128) -> Result<Value, RunFault>
    ensures { result ≡ in_range (m +ℤ n) }
{
    match m.checked_add(n) {
        Some(sum) => Ok(number(sum)),
        None => Err(RunFault::Overflow),
    }
}

fn less(m: i128, n: i128) -> Result<Value, RunFault>
    ensures { result ≡ in_range (m -ℤ n) }
{
    match m.checked_sub(n) {
        Some(rest) => Ok(number(rest)),
        None => Err(RunFault::Overflow),
    }
}

fn product(m: i128, n: i128) -> Result<Value, RunFault>
    ensures { result ≡ in_range (m *ℤ n) }
{
    match m.checked_mul(n) {
        Some(product) => Ok(number(product)),
        None => Err(RunFault::Overflow),
    }
}
