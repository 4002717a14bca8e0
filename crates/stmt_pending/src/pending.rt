// What is still to be checked.

ghost use Rattle.std.specs.Prelude.{◌≡◌};
ghost use Rattle.vdm_tree.specs.StmtView.{boxed_stmt};
ghost use Rattle.spec_checks.specs.Statements.{check_stmt};
ghost use Rattle.stmt_scopes.specs.Below.check_scopes.specs.Told.{spec_in};
ghost use Rattle.stmt_scopes.specs.Below.check_scopes.specs.declared.setting.Setting.{Setting as AnySetting};
ghost use Rattle.stmt_scopes.specs.Standing.{stands_at};
ghost use Rattle.stmt_scopes.specs.declared.returned.Returned.{Returned as AnyReturned};
ghost use Rattle.stmt_pending.specs.Meant.{pending_check};

use crate::task::Task;
use stmt_scopes::Standing;
use vdm_tree::Stmt;

/// What is still to be checked, and where it stands.
#[derive(Drop)]
pub struct Pending<'t> {
    pub task: Task<'t>,
    pub standing: Standing,
}

/// A statement that stands there.
pub fn pending_in<'t>(stmt: &'t Box<Stmt>, standing: Standing) -> Pending<'t>
    ensures { (setting : AnySetting) (returned : AnyReturned) → pending_check setting returned result ≡ check_stmt (spec_in setting) (stands_at setting returned standing) (boxed_stmt stmt.entry.now) }
{
    Pending {
        task: Task::Stmt(stmt),
        standing,
    }
}
