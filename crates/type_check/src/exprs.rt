// Expressions.

ghost use Rattle.std.specs.Prelude.{◌≡◌, IfOk};
ghost use Rattle.expr_tree.specs.View.{view_of};
ghost use Rattle.class_checks.specs.Expressions.{check};
ghost use Rattle.check_named.specs.Below.check_scopes.specs.Told.{first_in, told};
ghost use Rattle.check_named.specs.Below.check_frames.specs.Meant.{next_check, scope_here, spec_here};

use check_bound::{choice_next, inside_next, parts_next};
use check_called::{call_next, selection_next};
use check_named::handed::check_frames::{Here, Next};
use check_named::handed::check_scopes::Refusals;
use check_named::{name_next, plain_next, test_next};
use expr_topics::{Topic, expr_topic};
use expr_tree::Expr;
use vdm_kinds::OutOfMemory;

/// What comes first of an expression.
pub(crate) fn expr_next<'t>(
    here: Here<'_>,
    expr: &'t Expr,
    refusals: &mut Refusals,
) -> Result<Next<'t>, OutOfMemory>
    ensures { IfOk result (λ next. told (first_in refusals.old) (check (spec_here here.entry) (scope_here here.entry) (view_of expr.entry.now)) ≡ told (first_in refusals.new) (next_check here.entry.setting next)) }
{
    match expr_topic(expr) {
        Topic::Names => name_next(here, expr, refusals),
        Topic::Plain => plain_next(here, expr),
        Topic::Calls => call_next(here, expr, refusals),
        Topic::Selections => selection_next(here, expr),
        Topic::Tests => test_next(here, expr, refusals),
        Topic::Inside => inside_next(here, expr),
        Topic::Choices => choice_next(here, expr),
        Topic::Parts => parts_next(here, expr),
    }
}
