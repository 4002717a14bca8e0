// Numbers and Booleans.

use vdm_kinds::{Operator, RunFault};
use vdm_values::Node;

pub(crate) fn of_one(operator: Operator, m: i128) -> Result<Node, RunFault> {
    match operator {
        Operator::Positive => Ok(Node::Int(m)),
        Operator::Negative => within(0_i128.checked_sub(m)),
        Operator::Absolute if m < 0 => within(0_i128.checked_sub(m)),
        Operator::Absolute => Ok(Node::Int(m)),
        _ => Err(RunFault::TypeFault),
    }
}

pub(crate) fn of_two(operator: Operator, m: i128, n: i128) -> Result<Node, RunFault> {
    match operator {
        Operator::Plus => within(m.checked_add(n)),
        Operator::Minus => within(m.checked_sub(n)),
        Operator::Times => within(m.checked_mul(n)),
        Operator::Div | Operator::Rem | Operator::Mod => divided(operator, m, n),
        Operator::Exponent => power(m, n),
        _ => compared(operator, m, n),
    }
}

pub(crate) fn of_truth(operator: Operator, p: bool) -> Result<Node, RunFault> {
    match operator {
        Operator::Not => Ok(Node::Bool(!p)),
        _ => Err(RunFault::TypeFault),
    }
}

pub(crate) fn of_truths(operator: Operator, p: bool, q: bool) -> Result<Node, RunFault> {
    match operator {
        Operator::Equivalent => Ok(Node::Bool(p == q)),
        _ => Err(RunFault::TypeFault),
    }
}

fn compared(operator: Operator, m: i128, n: i128) -> Result<Node, RunFault> {
    match operator {
        Operator::Less => Ok(Node::Bool(m < n)),
        Operator::LessEqual => Ok(Node::Bool(m < n || m == n)),
        Operator::Greater => Ok(Node::Bool(n < m)),
        Operator::GreaterEqual => Ok(Node::Bool(n < m || m == n)),
        _ => Err(RunFault::TypeFault),
    }
}

fn within(number: Option<i128>) -> Result<Node, RunFault> {
    match number {
        Some(number) => Ok(Node::Int(number)),
        None => Err(RunFault::Overflow),
    }
}

// By the sizes of the two, and then by their signs.
fn divided(operator: Operator, m: i128, n: i128) -> Result<Node, RunFault> {
    if n == 0 {
        return Err(RunFault::DivideByZero);
    }
    let rest = m.unsigned_abs() % n.unsigned_abs();
    let is_apart = (m < 0) != (n < 0);
    match operator {
        Operator::Div => signed(m.unsigned_abs() / n.unsigned_abs(), is_apart),
        Operator::Rem => signed(rest, m < 0),
        // What is left up to the next multiple, where the signs differ.
        _ if is_apart && rest > 0 => signed(n.unsigned_abs() - rest, n < 0),
        _ => signed(rest, n < 0),
    }
}

// The number of this size.
fn signed(size: u128, is_negative: bool) -> Result<Node, RunFault> {
    match i128::try_from(size) {
        Ok(number) if is_negative => Ok(Node::Int(0_i128.wrapping_sub(number))),
        Ok(number) => Ok(Node::Int(number)),
        Err(_) if is_negative && size == i128::MIN.unsigned_abs() => Ok(Node::Int(i128::MIN)),
        Err(_) => Err(RunFault::Overflow),
    }
}

// One factor after another. Of more than 128 factors only -1, 0 and 1 have a power, and that goes by whether the factors
// are even in number.
fn power(m: i128, n: i128) -> Result<Node, RunFault> {
    if n < 0 {
        return Err(RunFault::ExponentRange);
    }
    let mut power: i128 = 1;
    for _factor in 0..factors(n) {
        match power.checked_mul(m) {
            Some(product) => power = product,
            None => return Err(RunFault::Overflow),
        }
    }
    Ok(Node::Int(power))
}

fn factors(n: i128) -> i128 {
    if n <= 128 { n } else { 128 + n % 2 }
}
