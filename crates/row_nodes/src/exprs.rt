// How expressions are written: names, operators, applications and selections.

use crate::far_forms::far_node;
use crate::made::made_node;
use crate::node::{Node, Part, leaf, one, three, two};
use expr_tree::Expr;
use vdm_kinds::Counter;

/// What is written of an expression.
pub fn expr_node(tree: &Expr) -> Node<'_> {
    match tree {
        Expr::Literal(literal, _) => one("", Part::Literal(literal)),
        Expr::Name(name, _) => one("", Part::Name(*name)),
        Expr::Qualified(class, name, _, _) => two("of", Part::Name(*class), Part::Name(*name)),
        Expr::Old(name, _) => one("old", Part::Name(*name)),
        Expr::SelfObject(_) => leaf("self"),
        Expr::Time(_) => leaf("time"),
        Expr::Undefined(_) => leaf("undefined"),
        Expr::Result(_) => leaf("RESULT"),
        Expr::Bracketed(inner, _) => one("brackets", Part::Expr(inner)),
        Expr::Prefix(sign, operand, _) => one(sign.text(), Part::Expr(operand)),
        Expr::Infix(left, sign, right, _) => {
            two(sign.text(), Part::Expr(left), Part::Expr(right))
        }
        _ => behind_node(tree),
    }
}

// What stands behind an expression.
fn behind_node(tree: &Expr) -> Node<'_> {
    match tree {
        Expr::Apply(head, arguments, _) => {
            two("apply", Part::Expr(head), Part::Exprs(arguments))
        }
        Expr::Subsequence(target, first, last, _) => three(
            "part",
            Part::Expr(target),
            Part::Expr(first),
            Part::Expr(last),
        ),
        Expr::Select(target, name, _, _) => two(".", Part::Expr(target), Part::Name(*name)),
        Expr::SelectOfClass(target, class, _, name, _, _) => three(
            ".",
            Part::Expr(target),
            Part::Name(*class),
            Part::Name(*name),
        ),
        Expr::SelectPart(target, number, _) => {
            two(".#", Part::Expr(target), Part::Number(*number))
        }
        Expr::New(class, _, arguments, _) => {
            two("new", Part::Name(*class), Part::Exprs(arguments))
        }
        Expr::History(counter, names, _) => one(counter_word(*counter), Part::Names(names)),
        _ => other_node(tree),
    }
}

fn other_node(tree: &Expr) -> Node<'_> {
    match made_node(tree) {
        Some(node) => node,
        None => far_node(tree),
    }
}

fn counter_word(counter: Counter) -> &'static str {
    match counter {
        Counter::Requests => "#req",
        Counter::Activations => "#act",
        Counter::Finishes => "#fin",
        Counter::Active => "#active",
        Counter::Waiting => "#waiting",
    }
}
