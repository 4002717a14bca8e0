// What is still to be checked.

ghost use Rattle.std.specs.Prelude.{◌≡◌, IfOk};
ghost use Rattle.stmt_simple.specs.Below.check_scopes.specs.Told.{first_in};
ghost use Rattle.stmt_simple.specs.Below.stmt_scopes.specs.Standing.{stands_at, stands_here};
ghost use Rattle.stmt_simple.specs.Below.stmt_scopes.specs.Refused.{refused};
ghost use Rattle.stmt_bound.specs.Below.stmt_pending.specs.Meant.{next_check, pending_check, task_check};

use crate::stmts::stmt_next;
use std::alloc::Global;
use stmt_bound::handed::stmt_pending::{Next, Pending, Task};
use stmt_chosen::{bodies_next, branches_next, cases_next, handlers_next, stmts_next};
use stmt_simple::handed::check_frames::Here;
use stmt_simple::handed::check_scopes::{Refusals, Setting};
use stmt_simple::handed::stmt_scopes::{Returned, Standing, Stands};
use vdm_kinds::OutOfMemory;

/// What is refused before the statements inside is noted, and these come next.
pub fn pending_next<'t>(
    alloc: Global,
    setting: Setting<'_>,
    returned: &Returned,
    pending: Pending<'t>,
    refusals: &mut Refusals,
) -> Result<Next<'t>, OutOfMemory>
    ensures { IfOk result (λ next. refused (first_in refusals.old) (pending_check setting.entry returned.now pending.entry) ≡ refused (first_in refusals.new) (next_check setting.entry returned.now next)) }
{
    let Pending { task, standing } = pending;
    task_there(alloc, setting, returned, &standing, task, refusals)
}

fn task_there<'t>(
    alloc: Global,
    setting: Setting<'_>,
    returned: &Returned,
    standing: &Standing,
    task: Task<'t>,
    refusals: &mut Refusals,
) -> Result<Next<'t>, OutOfMemory>
    ensures { IfOk result (λ next. refused (first_in refusals.old) (task_check setting.entry (stands_at setting.entry returned.now standing.now) task.entry) ≡ refused (first_in refusals.new) (next_check setting.entry returned.now next)) }
{
    let here = Here {
        alloc,
        setting,
        locals: &standing.locals,
    };
    let stands = Stands {
        here,
        declared: &standing.declared,
        returned,
    };
    task_next(stands, task, refusals)
}

fn task_next<'t>(
    stands: Stands<'_>,
    task: Task<'t>,
    refusals: &mut Refusals,
) -> Result<Next<'t>, OutOfMemory>
    ensures { IfOk result (λ next. refused (first_in refusals.old) (task_check stands.entry.here.setting (stands_here stands.entry) task.entry) ≡ refused (first_in refusals.new) (next_check stands.entry.here.setting stands.entry.returned.now next)) }
{
    match task {
        Task::Stmt(stmt) => stmt_next(stands, stmt, refusals),
        Task::Stmts(stmts) => stmts_next(stands, stmts),
        Task::Branches {
            branches,
            otherwise,
        } => branches_next(stands, branches, otherwise, refusals),
        Task::Cases(all) => cases_next(stands, all, refusals),
        Task::Bodies(bodies) => bodies_next(stands, bodies, refusals),
        Task::Handlers { handlers, body } => handlers_next(stands, handlers, body, refusals),
    }
}
