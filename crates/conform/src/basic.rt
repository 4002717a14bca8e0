// The types of a word.

ghost use Rattle.std.specs.Prelude.{◌≡◌};
ghost use Rattle.vdm_kinds.specs.declared.basic_type.BasicType.TheVariants.{Bool as Truth, Nat, Nat1, Int, Char, Token};
ghost use Rattle.type_meaning.specs.Shapes.{is_of_basic};

use vdm_kinds::BasicType;
use vdm_values::{Node, Value};

/// Whether the type of a word takes the value.
pub fn is_of_basic(basic: BasicType, value: &Value) -> bool
    ensures { result ≡ is_of_basic basic value.now }
{
    match basic {
        BasicType::Bool => is_truth(value),
        BasicType::Nat => is_natural(value),
        BasicType::Nat1 => is_positive(value),
        BasicType::Int => is_number(value),
        BasicType::Char => is_character(value),
        BasicType::Token => is_token(value),
    }
}

fn is_truth(value: &Value) -> bool
    ensures { result ≡ is_of_basic Truth value.now }
{
    match value.node() {
        Node::Bool(_) => true,
        _ => false,
    }
}

fn is_natural(value: &Value) -> bool
    ensures { result ≡ is_of_basic Nat value.now }
{
    match value.node() {
        Node::Int(number) => *number >= 0,
        _ => false,
    }
}

fn is_positive(value: &Value) -> bool
    ensures { result ≡ is_of_basic Nat1 value.now }
{
    match value.node() {
        Node::Int(number) => *number >= 1,
        _ => false,
    }
}

fn is_number(value: &Value) -> bool
    ensures { result ≡ is_of_basic Int value.now }
{
    match value.node() {
        Node::Int(_) => true,
        _ => false,
    }
}

fn is_character(value: &Value) -> bool
    ensures { result ≡ is_of_basic Char value.now }
{
    match value.node() {
        Node::Char(_) => true,
        _ => false,
    }
}

fn is_token(value: &Value) -> bool
    ensures { result ≡ is_of_basic Token value.now }
{
    match value.node() {
        Node::Token(_) => true,
        _ => false,
    }
}
