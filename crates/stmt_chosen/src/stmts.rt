// Statements one behind the other.

ghost use Rattle.std.specs.Prelude.{◌≡◌, IfOk};
ghost use Rattle.vdm_tree.specs.StmtView.{stmt_trees, stmt_views};
ghost use Rattle.spec_checks.specs.Statements.{check_stmts};
ghost use Rattle.stmt_pending.specs.Below.check_frames.specs.Meant.{spec_here};
ghost use Rattle.stmt_pending.specs.Below.stmt_scopes.specs.Standing.{stands_here};
ghost use Rattle.stmt_pending.specs.Meant.{next_check, pending_check, task_check};

use stmt_pending::handed::stmt_scopes::{Stands, kept};
use stmt_pending::{Next, Pending, Task};
use vdm_kinds::OutOfMemory;
use vdm_tree::Stmt;

/// The next of the statements.
pub fn stmts_next<'t>(stands: Stands<'_>, stmts: &'t [Stmt]) -> Result<Next<'t>, OutOfMemory>
    ensures { IfOk result (λ next. check_stmts (spec_here stands.entry.here) (stands_here stands.entry) (stmt_trees (stmt_views stmts.entry.now)) ≡ next_check stands.entry.here.setting stands.entry.returned.now next) }
{
    match stmts {
        [] => Ok(Next::Nothing),
        [first, more @ ..] => Ok(Next::Two(
            in_place(stands, Task::Stmt(first))?,
            in_place(stands, Task::Stmts(more))?,
        )),
    }
}

// What stands here.
fn in_place<'t>(stands: Stands<'_>, task: Task<'t>) -> Result<Pending<'t>, OutOfMemory>
    ensures { IfOk result (λ pending. task_check stands.entry.here.setting (stands_here stands.entry) task.entry ≡ pending_check stands.entry.here.setting stands.entry.returned.now pending) }
{
    let standing = kept(stands)?;
    Ok(Pending { task, standing })
}
