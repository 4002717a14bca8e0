// How types are written.

use crate::node::{Node, Part, leaf, one, two};
use expr_tree::TypeExpr;
use vdm_kinds::BasicType;

/// What is written of a type.
pub fn type_node(tree: &TypeExpr) -> Node<'_> {
    match tree {
        TypeExpr::Basic(basic, _) => leaf(basic_word(*basic)),
        TypeExpr::Quote(name, _) => one("quote", Part::Name(*name)),
        TypeExpr::Set(inner, _) => one("set", Part::Type(inner)),
        TypeExpr::Seq(inner, _) => one("seq", Part::Type(inner)),
        TypeExpr::Seq1(inner, _) => one("seq1", Part::Type(inner)),
        TypeExpr::Map(key, value, _) => two("map", Part::Type(key), Part::Type(value)),
        TypeExpr::InMap(key, value, _) => two("inmap", Part::Type(key), Part::Type(value)),
        TypeExpr::Optional(inner, _) => one("optional", Part::Type(inner)),
        TypeExpr::Bracketed(inner, _) => one("brackets", Part::Type(inner)),
        TypeExpr::Named(name, _) => one("", Part::Named(*name)),
        TypeExpr::Product(factors, _) => one("product", Part::Types(factors)),
        TypeExpr::Union(alternatives, _) => one("union", Part::Types(alternatives)),
    }
}

/// The word of a basic type.
pub(crate) fn basic_word(basic: BasicType) -> &'static str {
    match basic {
        BasicType::Bool => "bool",
        BasicType::Nat => "nat",
        BasicType::Nat1 => "nat1",
        BasicType::Int => "int",
        BasicType::Char => "char",
        BasicType::Token => "token",
    }
}
