// What stands under conditions and inside binds.

ghost use Rattle.std.specs.Prelude.{◌≡◌, IfOk};
ghost use Rattle.abstract_syntax.specs.Expressions.{given_expr};
ghost use Rattle.class_checks.specs.Expressions.{where_true};
ghost use Rattle.check_frames.specs.Meant.{boxed, body_check, inside_check, next_check, scope_here, spec_here};

use crate::boxes::{becomes, part_of, place_of};
use crate::parts::rest_next;
use check_frames::{Body, Here, Inside, Next, Step};
use expr_tree::Expr;
use vdm_kinds::OutOfMemory;

/// What is checked once a condition is.
pub fn body_next<'t>(here: Here<'_>, body: Body<'t>) -> Result<Next<'t>, OutOfMemory>
    ensures { IfOk result (λ next. body_check here.entry.setting (scope_here here.entry) body.entry ≡ next_check here.entry.setting next) }
{
    match body {
        Body::Parts(shape, rest) => rest_next(here, shape, Vec::new(here.alloc), rest),
        Body::Expr(expr) => becomes(here, expr),
        Body::Known(form) => Ok(Next::Gives(form)),
    }
}

/// What is checked inside binds: the condition first, where there is one.
pub fn inside_next<'t>(here: Here<'_>, inside: Inside<'t>) -> Result<Next<'t>, OutOfMemory>
    ensures { IfOk result (λ next. inside_check here.entry.setting (scope_here here.entry) inside.entry ≡ next_check here.entry.setting next) }
{
    match inside.condition {
        Some(condition) => condition_next(here, condition, inside.body),
        None => body_next(here, inside.body),
    }
}

/// A condition, and what stands under it.
pub fn condition_next<'t>(
    here: Here<'_>,
    condition: &'t Box<Expr>,
    body: Body<'t>,
) -> Result<Next<'t>, OutOfMemory>
    ensures { IfOk result (λ next. where_true (spec_here here.entry) (scope_here here.entry) (given_expr (boxed condition.entry)) (body_check here.entry.setting (scope_here here.entry) body.entry) ≡ next_check here.entry.setting next) }
{
    let step = Step::Condition {
        place: place_of(condition),
        body,
    };
    part_of(here, condition, step)
}
