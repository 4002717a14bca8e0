// Statements.

ghost use Rattle.std.specs.Prelude.{◌≡◌, IfOk};
ghost use Rattle.vdm_tree.specs.StmtView.{stmt_view};
ghost use Rattle.spec_checks.specs.Statements.{check_stmt};
ghost use Rattle.stmt_simple.specs.Below.check_scopes.specs.Told.{first_in};
ghost use Rattle.stmt_simple.specs.Below.check_frames.specs.Meant.{spec_here};
ghost use Rattle.stmt_simple.specs.Below.stmt_scopes.specs.Standing.{stands_here};
ghost use Rattle.stmt_simple.specs.Below.stmt_scopes.specs.Refused.{refused};
ghost use Rattle.stmt_bound.specs.Below.stmt_pending.specs.Meant.{next_check};

use stmt_bound::bound_next;
use stmt_bound::handed::stmt_pending::Next;
use stmt_chosen::chosen_next;
use stmt_simple::handed::check_scopes::Refusals;
use stmt_simple::handed::stmt_scopes::Stands;
use stmt_simple::refuse_simple;
use stmt_topics::{Topic, stmt_topic};
use vdm_kinds::OutOfMemory;
use vdm_tree::Stmt;

/// What is refused in a statement before the statements in it is noted, and these come next.
pub(crate) fn stmt_next<'t>(
    stands: Stands<'_>,
    stmt: &'t Stmt,
    refusals: &mut Refusals,
) -> Result<Next<'t>, OutOfMemory>
    ensures { IfOk result (λ next. refused (first_in refusals.old) (check_stmt (spec_here stands.entry.here) (stands_here stands.entry) (stmt_view stmt.entry.now)) ≡ refused (first_in refusals.new) (next_check stands.entry.here.setting stands.entry.returned.now next)) }
{
    match stmt_topic(stmt) {
        Topic::Simple => {
            refuse_simple(stands, stmt, refusals)?;
            Ok(Next::Nothing)
        }
        Topic::Bound => bound_next(stands, stmt, refusals),
        Topic::Chosen => chosen_next(stands, stmt, refusals),
    }
}
