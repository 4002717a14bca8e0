// How expressions are written: sets, maps, sequences, records, and tests of types and classes.

use crate::node::{Node, Part, four, leaf, one, three, two};
use crate::types::basic_word;
use expr_tree::Expr;

/// What is written of what is made of parts.
pub(crate) fn made_node(tree: &Expr) -> Option<Node<'_>> {
    let node = match tree {
        Expr::SetEnumeration(items, _) => one("set", Part::Exprs(items)),
        Expr::SetRange(first, last, _) => two("range", Part::Expr(first), Part::Expr(last)),
        Expr::SetComprehension(item, binds, such, _) => three(
            "set_of",
            Part::Expr(item),
            Part::Binds(binds),
            Part::Maybe(such),
        ),
        Expr::EmptyMap(_) => leaf("map()"),
        Expr::MapEnumeration(items, _) => one("map", Part::Maplets(items)),
        Expr::MapComprehension(key, value, binds, such, _) => four(
            "map_of",
            Part::Expr(key),
            Part::Expr(value),
            Part::Binds(binds),
            Part::Maybe(such),
        ),
        Expr::SequenceEnumeration(items, _) => one("seq", Part::Exprs(items)),
        Expr::SequenceComprehension(item, pattern, set, such, _) => four(
            "seq_of",
            Part::Expr(item),
            Part::Pattern(pattern),
            Part::Expr(set),
            Part::Maybe(such),
        ),
        _ => return record_node(tree),
    };
    Some(node)
}

fn record_node(tree: &Expr) -> Option<Node<'_>> {
    let node = match tree {
        Expr::MakeTuple(items, _) => one("tuple", Part::Exprs(items)),
        Expr::MakeToken(inner, _) => one("mk_token", Part::Expr(inner)),
        Expr::MakeRecord(name, items, _) => two("mk", Part::Named(*name), Part::Exprs(items)),
        Expr::ModifyRecord(target, fields, _) => {
            two("mu", Part::Expr(target), Part::Fields(fields))
        }
        _ => return test_node(tree),
    };
    Some(node)
}

fn test_node(tree: &Expr) -> Option<Node<'_>> {
    let node = match tree {
        Expr::IsOfType(tested, declared, _) => two("is", Part::Expr(tested), Part::Type(declared)),
        Expr::IsOfNamed(name, tested, _) => two("is", Part::Named(*name), Part::Expr(tested)),
        Expr::IsOfBasic(basic, tested, _) => {
            two("is", Part::Text(basic_word(*basic)), Part::Expr(tested))
        }
        Expr::IsOfClass(class, _, tested, _) => {
            two("isofclass", Part::Name(*class), Part::Expr(tested))
        }
        Expr::IsOfBaseClass(class, _, tested, _) => {
            two("isofbaseclass", Part::Name(*class), Part::Expr(tested))
        }
        Expr::SameClass(left, right, _) => two("sameclass", Part::Expr(left), Part::Expr(right)),
        Expr::SameBaseClass(left, right, _) => {
            two("samebaseclass", Part::Expr(left), Part::Expr(right))
        }
        _ => return None,
    };
    Some(node)
}
