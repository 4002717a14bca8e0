// The branches of an `if`.

ghost use Rattle.std.specs.Prelude.{◌≡◌, IfOk, map};
ghost use Rattle.expr_tree.specs.View.{boxed_view};
ghost use Rattle.vdm_tree.specs.StmtView.{boxed_stmt, maybe_stmt, stmt_branch_trees, stmt_branch_view};
ghost use Rattle.spec_checks.specs.Statements.{stmt_branches};
ghost use Rattle.stmt_pending.specs.Below.check_scopes.specs.Told.{first_in};
ghost use Rattle.stmt_pending.specs.Below.check_frames.specs.Meant.{spec_here};
ghost use Rattle.stmt_pending.specs.Below.stmt_scopes.specs.Standing.{stands_here};
ghost use Rattle.stmt_pending.specs.Below.stmt_scopes.specs.Refused.{refused};
ghost use Rattle.stmt_pending.specs.Meant.{branch_check, last_check, next_check};

use expr_tree::Expr;
use stmt_exprs::refuse_wanting;
use stmt_pending::handed::check_scopes::Refusals;
use stmt_pending::handed::check_shapes::Kind;
use stmt_pending::handed::stmt_scopes::{Stands, kept};
use stmt_pending::{Next, Pending, Task, maybe_next, then_next};
use vdm_kinds::OutOfMemory;
use vdm_tree::{Stmt, StmtBranch};

/// The next of the branches; with none left, the statement behind `else`.
pub fn branches_next<'t>(
    stands: Stands<'_>,
    branches: &'t [StmtBranch],
    otherwise: &'t Option<Box<Stmt>>,
    refusals: &mut Refusals,
) -> Result<Next<'t>, OutOfMemory>
    ensures { IfOk result (λ next. refused (first_in refusals.old) (stmt_branches (spec_here stands.entry.here) (stands_here stands.entry) (stmt_branch_trees (map stmt_branch_view branches.entry.now)) (last_check (spec_here stands.entry.here) (stands_here stands.entry) (maybe_stmt otherwise.entry.now))) ≡ refused (first_in refusals.new) (next_check stands.entry.here.setting stands.entry.returned.now next)) }
{
    match branches {
        [] => maybe_next(stands, otherwise),
        [branch, more @ ..] => {
            let condition = &branch.condition;
            branch_next(stands, condition, &branch.body, more, otherwise, refusals)
        }
    }
}

/// A condition, the statement behind it, and the branches that are left.
pub(crate) fn branch_next<'t>(
    stands: Stands<'_>,
    condition: &Box<Expr>,
    body: &'t Box<Stmt>,
    branches: &'t [StmtBranch],
    otherwise: &'t Option<Box<Stmt>>,
    refusals: &mut Refusals,
) -> Result<Next<'t>, OutOfMemory>
    ensures { IfOk result (λ next. refused (first_in refusals.old) (branch_check (spec_here stands.entry.here) (stands_here stands.entry) (boxed_view condition.now) (boxed_stmt body.entry.now) (stmt_branch_trees (map stmt_branch_view branches.entry.now)) (maybe_stmt otherwise.entry.now)) ≡ refused (first_in refusals.new) (next_check stands.entry.here.setting stands.entry.returned.now next)) }
{
    refuse_wanting(stands, Kind::Truth, condition, refusals)?;
    let task = Task::Branches {
        branches,
        otherwise,
    };
    let standing = kept(stands)?;
    let rest = Pending { task, standing };
    Ok(then_next(body, kept(stands)?, rest))
}
