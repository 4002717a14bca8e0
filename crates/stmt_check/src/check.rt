// The check of a whole statement.

ghost use Rattle.std.specs.Prelude.{◌≡◌, IfOk, OnOk};
ghost use Rattle.vdm_tree.specs.StmtView.{stmt_view};
ghost use Rattle.class_checks.specs.Results.{first_among};
ghost use Rattle.spec_checks.specs.Statements.{check_stmt};
ghost use Rattle.spec_checks.specs.Targets.{nothing_declared};
ghost use Rattle.stmt_kinds.specs.Below.check_scopes.specs.Told.{first_in};
ghost use Rattle.stmt_kinds.specs.Below.check_frames.specs.Meant.{scope_here, spec_here};
ghost use Rattle.stmt_kinds.specs.Below.stmt_scopes.specs.Standing.{returned_view};
ghost use Rattle.stmt_kinds.specs.Below.stmt_scopes.specs.declared.returned.Returned.{Returned as AnyReturned};
ghost use Rattle.stmt_kinds.specs.Below.stmt_pending.specs.Meant.{pending_check};

use crate::run::run;
use crate::state::State;
use shared_names::SharedMap;
use stmt_kinds::handed::check_frames::Here;
use stmt_kinds::handed::check_scopes::Refusals;
use stmt_kinds::handed::stmt_pending::{Next, Pending, Task};
use stmt_kinds::handed::stmt_scopes::{Returned, Standing};
use vdm_kinds::OutOfMemory;
use vdm_tree::Stmt;

/// Notes what is refused in a statement that stands here, whose body may give back this.
pub fn refuse_stmt(
    here: Here<'_>,
    returned: &Returned,
    stmt: &Stmt,
    refusals: &mut Refusals,
) -> Result<(), OutOfMemory>
    ensures { OnOk result (first_in refusals.new ≡ first_among (first_in refusals.old) (check_stmt (spec_here here.entry) (record { within = scope_here here.entry; declared = nothing_declared; returned = returned_view returned.now }) (stmt_view stmt.now)).refusals) }
{
    let pending = begun(here, stmt)?;
    let state = State {
        next: Next::One(pending),
        stack: Vec::new(here.alloc),
    };
    run(here.alloc, here.setting, returned, state, refusals)
}

// The whole statement, where no local is declared yet.
fn begun<'t>(here: Here<'_>, stmt: &'t Stmt) -> Result<Pending<'t>, OutOfMemory>
    ensures { (returned : AnyReturned) → IfOk result (λ pending. pending_check here.entry.setting returned pending ≡ check_stmt (spec_here here.entry) (record { within = scope_here here.entry; declared = nothing_declared; returned = returned_view returned }) (stmt_view stmt.entry.now)) }
{
    let standing = Standing {
        locals: here.locals.copy()?,
        declared: SharedMap::new(),
    };
    let task = Task::Stmt(stmt);
    Ok(Pending { task, standing })
}
