// Sets of numbers that follow each other.

ghost use Rattle.std.specs.Prelude.{◌≡◌, IfOk, ◌≤ℤ◌, ◌<ℤ◌, ◌+ℤ◌, pos};
ghost use Rattle.value_operators.specs.Members.{numbers_from, count_from_to};
ghost use Rattle.value_operators.specs.Outcomes.{Gives, on_numbers, sized as sized_outcome};
ghost use Rattle.value_operators.specs.Sets.{interval as interval_of};

use std::alloc::Global;
use value_results::sized;
use vdm_kinds::{Halt, OutOfMemory, RunFault};
use vdm_values::{Node, Value};

// With more members a set of numbers is too large.
const MOST_NUMBERS: u128 = 199_999;

/// The numbers from the first to the second.
pub(crate) fn interval(alloc: Global, a: &Value, b: &Value) -> Result<Value, Halt<RunFault>>
    ensures { Gives result (on_numbers (λ m n. sized_outcome (interval_of m n)) a.now b.now) }
{
    match (a.node(), b.node()) {
        (Node::Int(m), Node::Int(n)) => from_to(alloc, *m, *n),
        _ => Err(Halt::Of(RunFault::TypeFault)),
    }
}

// They are counted before they are made.
fn from_to(alloc: Global, m: i128, n: i128) -> Result<Value, Halt<RunFault>>
    ensures { Gives result (sized_outcome (interval_of m n)) }
{
    if m > n {
        return sized(Value::new(Node::Set(Vec::new(alloc))));
    }
    if n.abs_diff(m) >= MOST_NUMBERS {
        return Err(Halt::Of(RunFault::SizeLimit));
    }
    let members = numbers(alloc, m, n)?;
    sized(Value::new(Node::Set(members)))
}

fn numbers(alloc: Global, m: i128, n: i128) -> Result<Vec<Value>, OutOfMemory>
    requires { m ≤ℤ n }
    ensures { IfOk result (λ made. made.items ≡ numbers_from m (count_from_to m n)) }
{
    let mut made = Vec::new(alloc);
    let mut next = m;
    while next < n {
        made.push(Value::new(Node::Int(next)))?;
        next = after(next, n);
    }
    made.push(Value::new(Node::Int(n)))?;
    Ok(made)
}

// The number after one that another is above.
fn after(m: i128, n: i128) -> i128
    requires { m <ℤ n }
    ensures { result ≡ m +ℤ pos 1 }
{
    m + 1
}
