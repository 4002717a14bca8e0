// The handlers of a `tixe`.

ghost use Rattle.std.specs.Prelude.{◌≡◌, IfOk, map};
ghost use Rattle.expr_tree.specs.View.{pattern_view};
ghost use Rattle.vdm_tree.specs.StmtView.{boxed_stmt, handler_trees, handler_view};
ghost use Rattle.spec_checks.specs.Statements.{check_stmt, handlers_in};
ghost use Rattle.stmt_pending.specs.Below.check_scopes.specs.Told.{first_in};
ghost use Rattle.stmt_pending.specs.Below.check_frames.specs.Meant.{spec_here};
ghost use Rattle.stmt_pending.specs.Below.stmt_scopes.specs.Standing.{stands_here};
ghost use Rattle.stmt_pending.specs.Below.stmt_scopes.specs.Refused.{refused};
ghost use Rattle.stmt_pending.specs.Meant.{handler_check, next_check};

use stmt_exprs::{inside_pattern, refuse_pattern};
use stmt_pending::handed::check_scopes::Refusals;
use stmt_pending::handed::stmt_scopes::{Stands, kept};
use stmt_pending::{Next, Pending, Task, next_in, then_next};
use type_forms::Form;
use vdm_kinds::OutOfMemory;
use vdm_tree::{Handler, Stmt};

/// The next of the handlers; with none left, the body.
pub fn handlers_next<'t>(
    stands: Stands<'_>,
    handlers: &'t [Handler],
    body: &'t Box<Stmt>,
    refusals: &mut Refusals,
) -> Result<Next<'t>, OutOfMemory>
    ensures { IfOk result (λ next. refused (first_in refusals.old) (handlers_in (spec_here stands.entry.here) (stands_here stands.entry) (handler_trees (map handler_view handlers.entry.now)) (check_stmt (spec_here stands.entry.here) (stands_here stands.entry) (boxed_stmt body.entry.now))) ≡ refused (first_in refusals.new) (next_check stands.entry.here.setting stands.entry.returned.now next)) }
{
    match handlers {
        [] => Ok(next_in(body, kept(stands)?)),
        [handler, more @ ..] => handler_next(stands, handler, more, body, refusals),
    }
}

// A handler, and those behind it. What is caught may have any form.
fn handler_next<'t>(
    stands: Stands<'_>,
    handler: &'t Handler,
    handlers: &'t [Handler],
    body: &'t Box<Stmt>,
    refusals: &mut Refusals,
) -> Result<Next<'t>, OutOfMemory>
    ensures { IfOk result (λ next. refused (first_in refusals.old) (handler_check (spec_here stands.entry.here) (stands_here stands.entry) (record { pattern = pattern_view handler.entry.now.pattern.value; body = boxed_stmt handler.entry.now.body }) (handler_trees (map handler_view handlers.entry.now)) (boxed_stmt body.entry.now)) ≡ refused (first_in refusals.new) (next_check stands.entry.here.setting stands.entry.returned.now next)) }
{
    refuse_pattern(stands.here, &handler.pattern, refusals)?;
    let inside = inside_pattern(stands, Form::any(), &handler.pattern)?;
    let task = Task::Handlers { handlers, body };
    let standing = kept(stands)?;
    Ok(then_next(&handler.body, inside, Pending { task, standing }))
}
