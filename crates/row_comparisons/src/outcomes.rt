// Whether an operator gives what the plain one gives.

use vdm_kinds::{Halt, RunFault};
use vdm_values::{Node, Value};

/// Whether the two give the same value or the same fault.
pub(crate) fn are_same(
    quick: &Result<Value, Halt<RunFault>>,
    plain: &Result<Node, RunFault>,
) -> bool {
    match (quick, plain) {
        (Ok(value), Ok(node)) => is_same(value.node(), node),
        (Err(Halt::Of(fault)), Err(other)) => fault == other,
        _ => false,
    }
}

// Of the kinds of values that are drawn.
fn is_same(a: &Node, b: &Node) -> bool {
    match (a, b) {
        (Node::Bool(p), Node::Bool(q)) => p == q,
        (Node::Int(m), Node::Int(n)) => m == n,
        (Node::Char(c), Node::Char(d)) => c == d,
        (Node::Tuple(a), Node::Tuple(b)) => a == b,
        (Node::Seq(a), Node::Seq(b)) => a == b,
        (Node::Set(a), Node::Set(b)) => a == b,
        (Node::Map(a), Node::Map(b)) => a == b,
        _ => false,
    }
}
