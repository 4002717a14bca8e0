// What comes behind patterns: the expressions in brackets in them, and then the rest.

ghost use Rattle.std.specs.Prelude.{◌≡◌, IfOk, map, drop};
ghost use Rattle.check_frames.specs.Meant.{boxed, given_check, givens_check, next_check, scope_here};

use crate::boxes::part_of;
use check_frames::{After, Here, Next, Step};
use expr_tree::Expr;
use vdm_kinds::OutOfMemory;

/// The next of the expressions in brackets; behind the last the rest.
pub fn givens_next<'t>(
    here: Here<'_>,
    exprs: Vec<&'t Box<Expr>>,
    next: usize,
    after: After<'t>,
) -> Result<Next<'t>, OutOfMemory>
    ensures { IfOk result (λ n. givens_check here.entry.setting (scope_here here.entry) (drop next (map boxed exprs.entry.items)) after.entry ≡ next_check here.entry.setting n) }
{
    match exprs.as_slice().get(next) {
        Some(&expr) => given_next(here, expr, exprs, next + 1, after),
        None => Ok(Next::Goes(after)),
    }
}

fn given_next<'t>(
    here: Here<'_>,
    expr: &'t Box<Expr>,
    exprs: Vec<&'t Box<Expr>>,
    next: usize,
    after: After<'t>,
) -> Result<Next<'t>, OutOfMemory>
    ensures { IfOk result (λ n. given_check here.entry.setting (scope_here here.entry) (boxed expr.entry) (drop next (map boxed exprs.entry.items)) after.entry ≡ next_check here.entry.setting n) }
{
    let step = Step::Given { exprs, next, after };
    part_of(here, expr, step)
}
