// Alternatives, one behind the other.

ghost use Rattle.std.specs.Prelude.{◌≡◌, IfOk, map};
ghost use Rattle.expr_tree.specs.View.{branch_trees, branch_view, maybe_view};
ghost use Rattle.class_checks.specs.Expressions.{others_in};
ghost use Rattle.check_steps.specs.Below.check_frames.specs.Meant.{boxed, branch_check, branches_check, last_check, next_check, scope_here, spec_here};

use check_steps::handed::check_frames::{Branches, Choice, Here, Next, Step};
use check_steps::{part_of, place_of};
use expr_tree::Expr;
use type_forms::Form;
use vdm_kinds::OutOfMemory;

/// The next `elseif`; with none left, what stands behind `else`.
pub fn branches_next<'t>(here: Here<'_>, rest: Branches<'t>) -> Result<Next<'t>, OutOfMemory>
    ensures { IfOk result (λ next. branches_check here.entry.setting (scope_here here.entry) rest.entry.known rest.entry ≡ next_check here.entry.setting next) }
{
    let Branches {
        known,
        branches,
        otherwise,
    } = rest;
    match branches {
        [] => last_next(here, known, otherwise),
        [branch, branches @ ..] => {
            let rest = Branches {
                known,
                branches,
                otherwise,
            };
            if_next(here, &branch.condition, &branch.value, rest)
        }
    }
}

/// A condition of an `if`, its value, and what follows.
pub fn if_next<'t>(
    here: Here<'_>,
    condition: &'t Box<Expr>,
    value: &'t Box<Expr>,
    rest: Branches<'t>,
) -> Result<Next<'t>, OutOfMemory>
    ensures { IfOk result (λ next. branch_check here.entry.setting (scope_here here.entry) rest.entry.known (boxed condition.entry) (boxed value.entry) (branch_trees (map branch_view rest.entry.branches.now)) (boxed rest.entry.otherwise) ≡ next_check here.entry.setting next) }
{
    let choice = Choice::If {
        place: place_of(condition),
        value,
        rest,
    };
    part_of(here, condition, Step::Choice(choice))
}

/// What stands behind `others`, where all else has the form `known`.
pub fn others_next<'t>(
    here: Here<'_>,
    known: Form,
    others: &'t Option<Box<Expr>>,
) -> Result<Next<'t>, OutOfMemory>
    ensures { IfOk result (λ next. others_in (spec_here here.entry) (scope_here here.entry) known (maybe_view others.entry.now) ≡ next_check here.entry.setting next) }
{
    match others {
        Some(others) => last_next(here, known, others),
        None => Ok(Next::Gives(known)),
    }
}

/// The last of several values.
fn last_next<'t>(here: Here<'_>, known: Form, last: &'t Box<Expr>) -> Result<Next<'t>, OutOfMemory>
    ensures { IfOk result (λ next. last_check here.entry.setting (scope_here here.entry) known (boxed last.entry) ≡ next_check here.entry.setting next) }
{
    let choice = Choice::Last { known };
    part_of(here, last, Step::Choice(choice))
}
