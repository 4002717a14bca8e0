// Parts that stand in boxes.

ghost use Rattle.std.specs.Prelude.{◌≡◌, IfOk};
ghost use Rattle.abstract_syntax.specs.Expressions.{expr_place};
ghost use Rattle.expr_tree.specs.View.{view_of};
ghost use Rattle.class_checks.specs.Expressions.{check};
ghost use Rattle.class_checks.specs.Results.{after};
ghost use Rattle.check_frames.specs.Meant.{boxed, next_check, scope_here, spec_here, step_check};

use check_frames::{Here, Next, Step};
use expr_tree::Expr;
use vdm_kinds::{OutOfMemory, Place};

/// A part is checked here, and then this is done with its form.
pub fn part_of<'t>(
    here: Here<'_>,
    part: &'t Box<Expr>,
    step: Step<'t>,
) -> Result<Next<'t>, OutOfMemory>
    ensures { IfOk result (λ next. after (check (spec_here here.entry) (scope_here here.entry) (boxed part.entry)) (step_check here.entry.setting (scope_here here.entry) step.entry) ≡ next_check here.entry.setting next) }
{
    Next::part(here, part, step)
}

/// The node is what another one is here.
pub fn becomes<'t>(here: Here<'_>, expr: &'t Box<Expr>) -> Result<Next<'t>, OutOfMemory>
    ensures { IfOk result (λ next. check (spec_here here.entry) (scope_here here.entry) (boxed expr.entry) ≡ next_check here.entry.setting next) }
{
    Next::becomes(here, expr)
}

/// Where a fault of the node stands.
pub fn place_of(expr: &Box<Expr>) -> Place
    ensures { result ≡ expr_place (view_of expr.now.value) }
{
    expr.place()
}
