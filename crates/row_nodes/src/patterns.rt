// How patterns are written.

use crate::node::{Node, Part, leaf, one, two};
use expr_tree::Pattern;

/// What is written of a pattern.
pub fn pattern_node(tree: &Pattern) -> Node<'_> {
    match tree {
        Pattern::AnyValue(_) => leaf("-"),
        Pattern::Bound(name, _) => one("", Part::Name(*name)),
        Pattern::Literal(literal, _) => one("", Part::Literal(literal)),
        Pattern::EqualTo(inner, _) => one("equal", Part::Expr(inner)),
        Pattern::Set(items, _) => one("set", Part::Patterns(items)),
        Pattern::Sequence(items, _) => one("seq", Part::Patterns(items)),
        Pattern::Map(items, _) => one("map", Part::MapletPatterns(items)),
        Pattern::EmptyMap(_) => leaf("map()"),
        Pattern::Tuple(items, _) => one("tuple", Part::Patterns(items)),
        Pattern::Record(name, items, _) => two("mk", Part::Named(*name), Part::Patterns(items)),
        Pattern::Concatenation(items, _) => one("^", Part::Patterns(items)),
    }
}
