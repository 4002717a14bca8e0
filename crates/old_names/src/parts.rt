// The parts of what stands in lists of expressions.

ghost use Rattle.std.specs.Prelude.{◌≡◌, map};
ghost use Rattle.stmt_meaning.specs.Olds.{olds_in_maybe, olds_in_maplets, olds_in_field_values, olds_in_defined, olds_in_branches, olds_in_cases};
ghost use Rattle.expr_tree.specs.View.{maybe_view, maplet_trees, maplet_view, field_value_trees, field_value_view, defined_trees, defined_view, branch_trees, branch_view, case_trees, case_view};
ghost use Rattle.old_names.specs.Walks.{parts_olds};

use crate::part::{Part, Parts};
use expr_tree::{Branch, Case, Defined, Expr, FieldValue, Maplet};

/// An expression, where one is given.
pub(crate) fn maybe_parts(expression: &Option<Box<Expr>>) -> Parts<'_>
    ensures { parts_olds result ≡ olds_in_maybe (maybe_view expression.now) }
{
    match expression {
        Some(expression) => Parts::One(Part::Expr(expression)),
        None => Parts::Nothing,
    }
}

/// The maplets of a list.
pub(crate) fn maplets_parts(maplets: &[Maplet]) -> Parts<'_>
    ensures { parts_olds result ≡ olds_in_maplets (maplet_trees (map maplet_view maplets.now)) }
{
    match maplets {
        [first, others @ ..] => Parts::Three(
            Part::Expr(&first.key),
            Part::Expr(&first.value),
            Part::Maplets(others),
        ),
        [] => Parts::Nothing,
    }
}

/// The fields of a `mu`.
pub(crate) fn field_values_parts(fields: &[FieldValue]) -> Parts<'_>
    ensures { parts_olds result ≡ olds_in_field_values (field_value_trees (map field_value_view fields.now)) }
{
    match fields {
        [first, others @ ..] => Parts::Two(Part::Expr(&first.value), Part::FieldValues(others)),
        [] => Parts::Nothing,
    }
}

/// What a `let` defines.
pub(crate) fn definitions_parts(definitions: &[Defined]) -> Parts<'_>
    ensures { parts_olds result ≡ olds_in_defined (defined_trees (map defined_view definitions.now)) }
{
    match definitions {
        [first, others @ ..] => Parts::Three(
            Part::Pattern(&first.pattern),
            Part::Expr(&first.value),
            Part::Definitions(others),
        ),
        [] => Parts::Nothing,
    }
}

/// The `elseif` of a list.
pub(crate) fn branches_parts(branches: &[Branch]) -> Parts<'_>
    ensures { parts_olds result ≡ olds_in_branches (branch_trees (map branch_view branches.now)) }
{
    match branches {
        [first, others @ ..] => Parts::Three(
            Part::Expr(&first.condition),
            Part::Expr(&first.value),
            Part::Branches(others),
        ),
        [] => Parts::Nothing,
    }
}

/// The alternatives of a `cases`.
pub(crate) fn cases_parts(cases: &[Case]) -> Parts<'_>
    ensures { parts_olds result ≡ olds_in_cases (case_trees (map case_view cases.now)) }
{
    match cases {
        [first, others @ ..] => Parts::Three(
            Part::Patterns(&first.patterns),
            Part::Expr(&first.value),
            Part::Cases(others),
        ),
        [] => Parts::Nothing,
    }
}
