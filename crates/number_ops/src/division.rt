// Division of numbers, in its three ways.

ghost use Rattle.std.specs.Prelude.{◌≡◌, ◌↔◌, ◌⊎◌, IsTrue, int_lt, pos};
ghost use Rattle.value_operators.specs.Numbers.{by_divisor, quotient as quotient_of, remainder as remainder_of, modulus as modulus_of};

use crate::number::{number, sum};
use vdm_kinds::RunFault;
use vdm_values::Value;

/// The quotient, cut toward zero.
pub(crate) fn quotient(m: i128, n: i128) -> Result<Value, RunFault>
    ensures { result ≡ by_divisor quotient_of m n }
{
    if n == 0 {
        return Err(RunFault::DivideByZero);
    }
    match m.checked_div(n) {
        Some(quotient) => Ok(number(quotient)),
        None => Err(RunFault::Overflow),
    }
}

/// What the quotient leaves, with the dividend's sign.
pub(crate) fn remainder(m: i128, n: i128) -> Result<Value, RunFault>
    ensures { result ≡ by_divisor remainder_of m n }
{
    if n == 0 {
        return Err(RunFault::DivideByZero);
    }
    Ok(number(m.wrapping_rem(n)))
}

/// What the floor of the quotient leaves, with the divisor's sign.
pub(crate) fn modulus(m: i128, n: i128) -> Result<Value, RunFault>
    ensures { result ≡ by_divisor modulus_of m n }
{
    if n == 0 {
        return Err(RunFault::DivideByZero);
    }
    let rest = m.wrapping_rem(n);
    if is_level(rest, n) {
        Ok(number(rest))
    } else {
        sum(rest, n)
    }
}

// Whether a rest is 0 or has the divisor's sign.
fn is_level(rest: i128, n: i128) -> bool
    ensures { IsTrue result ↔ (rest ≡ pos 0) ⊎ (int_lt rest (pos 0) ≡ int_lt n (pos 0)) }
{
    if rest == 0 {
        return true;
    }
    (rest < 0) == (n < 0)
}
