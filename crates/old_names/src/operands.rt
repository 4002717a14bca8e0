// The variable of an `x~`, and the operands of operators, of tests and of what stands behind its operand.

ghost use Rattle.std.specs.Prelude.{◌≡◌};
ghost use Rattle.expr_tree.specs.View.{view_of};
ghost use Rattle.old_names.specs.Walks.{parts_olds};
ghost use Rattle.old_names.specs.Groups.{operand_olds};

use crate::part::{Part, Parts};
use expr_tree::Expr;

/// The variable of an `x~`, or the operands of an operator, a test or what stands behind its operand; of another expression nothing.
pub(crate) fn operand_parts(expression: &Expr) -> Parts<'_>
    ensures { parts_olds result ≡ operand_olds (view_of expression.now) }
{
    match expression {
        Expr::Old(name, _) => Parts::Variable(*name),
        Expr::Bracketed(operand, _)
        | Expr::Prefix(_, operand, _)
        | Expr::MakeToken(operand, _)
        | Expr::IsOfType(operand, _, _)
        | Expr::IsOfNamed(_, operand, _)
        | Expr::IsOfBasic(_, operand, _)
        | Expr::IsOfClass(_, _, operand, _)
        | Expr::IsOfBaseClass(_, _, operand, _)
        | Expr::Select(operand, _, _, _)
        | Expr::SelectOfClass(operand, _, _, _, _, _)
        | Expr::SelectPart(operand, _, _) => Parts::One(Part::Expr(operand)),
        Expr::Infix(left, _, right, _)
        | Expr::SetRange(left, right, _)
        | Expr::SameClass(left, right, _)
        | Expr::SameBaseClass(left, right, _) => Parts::Two(Part::Expr(left), Part::Expr(right)),
        Expr::Apply(head, arguments, _) => Parts::Two(Part::Expr(head), Part::Exprs(arguments)),
        Expr::Subsequence(target, first, last, _) => {
            Parts::Three(Part::Expr(target), Part::Expr(first), Part::Expr(last))
        }
        _ => Parts::Nothing,
    }
}
