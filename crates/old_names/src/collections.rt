// The parts of sets, maps, sequences, tuples, records and objects.

ghost use Rattle.std.specs.Prelude.{◌≡◌};
ghost use Rattle.expr_tree.specs.View.{view_of};
ghost use Rattle.old_names.specs.Walks.{parts_olds};
ghost use Rattle.old_names.specs.Groups.{made_olds};

use crate::part::{Part, Parts};
use expr_tree::Expr;

/// What stands in what makes a value of several ones; of another expression nothing.
pub(crate) fn made_parts(expression: &Expr) -> Parts<'_>
    ensures { parts_olds result ≡ made_olds (view_of expression.now) }
{
    match expression {
        Expr::SetEnumeration(parts, _)
        | Expr::SequenceEnumeration(parts, _)
        | Expr::MakeTuple(parts, _)
        | Expr::MakeRecord(_, parts, _)
        | Expr::New(_, _, parts, _) => Parts::One(Part::Exprs(parts)),
        Expr::SetComprehension(element, binds, condition, _) => {
            Parts::Three(
                Part::Expr(element),
                Part::Binds(binds),
                Part::MaybeExpr(condition),
            )
        }
        Expr::MapEnumeration(maplets, _) => Parts::One(Part::Maplets(maplets)),
        Expr::MapComprehension(key, value, binds, condition, _) => Parts::Four(
            Part::Expr(key),
            Part::Expr(value),
            Part::Binds(binds),
            Part::MaybeExpr(condition),
        ),
        Expr::SequenceComprehension(item, pattern, set, condition, _) => Parts::Four(
            Part::Expr(item),
            Part::Pattern(pattern),
            Part::Expr(set),
            Part::MaybeExpr(condition),
        ),
        Expr::ModifyRecord(target, fields, _) => {
            Parts::Two(Part::Expr(target), Part::FieldValues(fields))
        }
        _ => Parts::Nothing,
    }
}
