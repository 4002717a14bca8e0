// Powers of numbers.

ghost use Rattle.std.specs.Prelude.{◌≡◌};
ghost use Rattle.std.specs.Int.{int_pow};
ghost use Rattle.value_operators.specs.Numbers.{power_of, in_range};
ghost use Rattle.number_ops.specs.Exponents.{reduced};

use crate::number::number;
use vdm_kinds::RunFault;
use vdm_values::Value;

/// The number to a power; 0 to the power of 0 is 1.
pub(crate) fn power(m: i128, n: i128) -> Result<Value, RunFault>
    ensures { result ≡ power_of m n }
{
    if n < 0 {
        return Err(RunFault::ExponentRange);
    }
    raised(m, exponent(n.unsigned_abs()))
}

// Above 128 an exponent counts by its parity alone: the powers of -1, 0 and 1 are the same, and all others lie outside.
fn exponent(n: u128) -> u32
    ensures { result ≡ reduced n }
{
    if n <= 128 {
        n as u32
    } else {
        128 + (n % 2) as u32
    }
}

fn raised(m: i128, exponent: u32) -> Result<Value, RunFault>
    ensures { result ≡ in_range (int_pow m exponent) }
{
    match m.checked_pow(exponent) {
        Some(power) => Ok(number(power)),
        None => Err(RunFault::Overflow),
    }
}
