// The parts of what reaches as far to the right as it can.

ghost use Rattle.std.specs.Prelude.{◌≡◌};
ghost use Rattle.expr_tree.specs.View.{view_of};
ghost use Rattle.old_names.specs.Walks.{parts_olds};
ghost use Rattle.old_names.specs.Groups.{far_olds};

use crate::part::{Part, Parts};
use expr_tree::Expr;

/// What stands in a `let`, an `if`, a `cases` or behind a quantifier; of another expression nothing.
pub(crate) fn far_parts(expression: &Expr) -> Parts<'_>
    ensures { parts_olds result ≡ far_olds (view_of expression.now) }
{
    match expression {
        Expr::LetIn(definitions, body, _) => {
            Parts::Two(Part::Definitions(definitions), Part::Expr(body))
        }
        Expr::LetBe(bind, condition, body, _) => {
            Parts::Three(
                Part::Bind(bind),
                Part::MaybeExpr(condition),
                Part::Expr(body),
            )
        }
        Expr::DefIn(pattern, value, body, _) => {
            Parts::Three(Part::Pattern(pattern), Part::Expr(value), Part::Expr(body))
        }
        Expr::IfElse(condition, value, elseifs, otherwise, _) => Parts::Four(
            Part::Expr(condition),
            Part::Expr(value),
            Part::Branches(elseifs),
            Part::Expr(otherwise),
        ),
        Expr::Cases(subject, cases, others, _) => {
            Parts::Three(
                Part::Expr(subject),
                Part::Cases(cases),
                Part::MaybeExpr(others),
            )
        }
        Expr::ForAll(binds, condition, _) | Expr::Exists(binds, condition, _) => {
            Parts::Two(Part::Binds(binds), Part::Expr(condition))
        }
        Expr::ExistsOne(bind, condition, _) | Expr::Iota(bind, condition, _) => {
            Parts::Two(Part::Bind(bind), Part::Expr(condition))
        }
        _ => Parts::Nothing,
    }
}
