// Literals as values.

ghost use Rattle.std.specs.Prelude.{◌≡◌, ◌↔◌, IsTrue, map};
ghost use Rattle.abstract_syntax.specs.Values.{character, sequence, value_trees};
ghost use Rattle.pattern_meaning.specs.Ways.{literal_value};
ghost use Rattle.patterns.specs.Todos.{subject_tree};
ghost use Rattle.type_tree.specs.LiteralView.{literal_view};
ghost use Rattle.vdm_values.specs.Tree.{tree_of};

use crate::subject::Subject;
use expr_tree::Literal;
use vdm_values::{Node, Value};

/// Whether the value is that of the literal.
pub(crate) fn is_literal(literal: &Literal, subject: Subject<'_>) -> bool
    ensures { IsTrue result ↔ subject_tree subject.entry ≡ literal_value (literal_view literal.now) }
{
    match subject {
        Subject::Whole(value) => is_literal_node(literal, value.node()),
        Subject::Part(items) => is_text_literal(literal, items),
    }
}

fn is_literal_node(literal: &Literal, node: &Node) -> bool
    ensures { IsTrue result ↔ tree_of node.now ≡ literal_value (literal_view literal.now) }
{
    match node {
        Node::Nil => matches!(literal, Literal::Nil),
        Node::Bool(truth) => matches!(literal, Literal::Bool(b) if b == truth),
        Node::Int(number) => matches!(literal, Literal::Whole(n) if n == number),
        Node::Char(character) => matches!(literal, Literal::Character(c) if c == character),
        Node::Quote(name) => matches!(literal, Literal::Quote(n) if n == name),
        Node::Seq(items) => is_text_literal(literal, items.as_slice()),
        _ => false,
    }
}

// Whether the literal is the text of these characters.
fn is_text_literal(literal: &Literal, items: &[Value]) -> bool
    ensures { IsTrue result ↔ sequence (value_trees items.now) ≡ literal_value (literal_view literal.now) }
{
    match literal {
        Literal::Text(characters) => is_text(characters.as_slice(), items),
        _ => false,
    }
}

fn is_text(characters: &[char], items: &[Value]) -> bool
    ensures { IsTrue result ↔ items.now ≡ map character characters.now }
{
    if characters.len() != items.len() {
        return false;
    }
    for (wanted, item) in characters.iter().zip(items) {
        if !is_character(*wanted, item) {
            return false;
        }
    }
    true
}

fn is_character(wanted: char, item: &Value) -> bool
    ensures { IsTrue result ↔ item.now ≡ character wanted }
{
    matches!(item.node(), Node::Char(c) if *c == wanted)
}
