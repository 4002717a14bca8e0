// How expressions are written that go to the right as far as they can.

use crate::node::{Node, Part, four, leaf, three, two};
use expr_tree::Expr;

/// What is written of such an expression.
pub(crate) fn far_node(tree: &Expr) -> Node<'_> {
    match tree {
        Expr::LetIn(definitions, body, _) => {
            two("let", Part::Definitions(definitions), Part::Expr(body))
        }
        Expr::LetBe(bind, such, body, _) => three(
            "let_be",
            Part::Bind(bind),
            Part::Maybe(such),
            Part::Expr(body),
        ),
        Expr::DefIn(pattern, value, body, _) => three(
            "def",
            Part::Pattern(pattern),
            Part::Expr(value),
            Part::Expr(body),
        ),
        Expr::IfElse(condition, value, branches, other, _) => four(
            "if",
            Part::Expr(condition),
            Part::Expr(value),
            Part::Branches(branches),
            Part::Expr(other),
        ),
        Expr::Cases(subject, cases, others, _) => three(
            "cases",
            Part::Expr(subject),
            Part::Cases(cases),
            Part::Maybe(others),
        ),
        Expr::ForAll(binds, body, _) => two("forall", Part::Binds(binds), Part::Expr(body)),
        Expr::Exists(binds, body, _) => two("exists", Part::Binds(binds), Part::Expr(body)),
        Expr::ExistsOne(bind, body, _) => two("exists1", Part::Bind(bind), Part::Expr(body)),
        Expr::Iota(bind, body, _) => two("iota", Part::Bind(bind), Part::Expr(body)),
        _ => leaf("?"),
    }
}
