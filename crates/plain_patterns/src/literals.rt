// Literals as values.

use expr_tree::Literal;
use vdm_values::{Node, Value};

/// Whether the value is that of the literal. A text is the sequence of its characters.
pub(crate) fn is_literal(literal: &Literal, value: &Value) -> bool {
    match (literal, value.node()) {
        (Literal::Whole(a), Node::Int(b)) => a == b,
        (Literal::Character(a), Node::Char(b)) => a == b,
        (Literal::Quote(a), Node::Quote(b)) => a == b,
        (Literal::Bool(a), Node::Bool(b)) => a == b,
        (Literal::Nil, Node::Nil) => true,
        (Literal::Text(characters), Node::Seq(items)) => {
            is_text(characters.as_slice(), items.as_slice())
        }
        _ => false,
    }
}

fn is_text(characters: &[char], items: &[Value]) -> bool {
    if characters.len() != items.len() {
        return false;
    }
    for (character, item) in characters.iter().zip(items) {
        if !matches!(item.node(), Node::Char(other) if other == character) {
            return false;
        }
    }
    true
}
