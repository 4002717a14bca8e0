// The alternatives of a `cases`.

ghost use Rattle.std.specs.Prelude.{◌≡◌, IfOk};
ghost use Rattle.expr_tree.specs.View.{pattern_views};
ghost use Rattle.vdm_tree.specs.StmtView.{boxed_stmt};
ghost use Rattle.stmt_pending.specs.Below.check_scopes.specs.Told.{first_in};
ghost use Rattle.stmt_pending.specs.Below.check_frames.specs.Meant.{at};
ghost use Rattle.stmt_pending.specs.Below.stmt_scopes.specs.Standing.{stands_here};
ghost use Rattle.stmt_pending.specs.Below.stmt_scopes.specs.Refused.{refused};
ghost use Rattle.stmt_pending.specs.Meant.{behind_check, bodies_check, body_check, case_check, cases_check, next_check};

use stmt_exprs::refuse_givens;
use stmt_pending::handed::check_patterns::{Patterns, patterns_faults, scopes_behind};
use stmt_pending::handed::check_scopes::{Locals, Refusals};
use stmt_pending::handed::stmt_scopes::{Standing, Stands, hidden_by, kept, names_of};
use stmt_pending::{Bodies, Cases, Next, Pending, Task, maybe_next, then_next};
use vdm_kinds::OutOfMemory;
use vdm_tree::StmtCase;

/// The next of the alternatives; with none left, the statement behind `others`.
pub fn cases_next<'t>(
    stands: Stands<'_>,
    all: Cases<'t>,
    refusals: &mut Refusals,
) -> Result<Next<'t>, OutOfMemory>
    ensures { IfOk result (λ next. refused (first_in refusals.old) (cases_check stands.entry.here.setting (stands_here stands.entry) all.entry) ≡ refused (first_in refusals.new) (next_check stands.entry.here.setting stands.entry.returned.now next)) }
{
    let Cases {
        form,
        cases,
        others,
    } = all;
    match cases {
        [] => maybe_next(stands, others),
        [case, cases @ ..] => {
            let all = Cases {
                form,
                cases,
                others,
            };
            case_next(stands, case, all, refusals)
        }
    }
}

// An alternative: what is refused in its patterns, and then what stands behind them.
fn case_next<'t>(
    stands: Stands<'_>,
    case: &'t StmtCase,
    all: Cases<'t>,
    refusals: &mut Refusals,
) -> Result<Next<'t>, OutOfMemory>
    ensures { IfOk result (λ next. refused (first_in refusals.old) (case_check stands.entry.here.setting (stands_here stands.entry) (record { patterns = pattern_views case.entry.now.patterns.items; body = boxed_stmt case.entry.now.body }) all.entry) ≡ refused (first_in refusals.new) (next_check stands.entry.here.setting stands.entry.returned.now next)) }
{
    let patterns = Patterns::Many(&case.patterns);
    patterns_faults(stands.here.setting, patterns, refusals)?;
    refuse_givens(stands.here, patterns, refusals)?;
    let bodies = bodies_behind(stands, case, all)?;
    let task = Task::Bodies(bodies);
    let standing = kept(stands)?;
    Ok(Next::One(Pending { task, standing }))
}

// What stands behind the patterns of an alternative.
fn bodies_behind<'t>(
    stands: Stands<'_>,
    case: &'t StmtCase,
    all: Cases<'t>,
) -> Result<Bodies<'t>, OutOfMemory>
    ensures { IfOk result (λ bodies. behind_check stands.entry.here.setting (stands_here stands.entry) (record { patterns = pattern_views case.entry.now.patterns.items; body = boxed_stmt case.entry.now.body }) all.entry ≡ bodies_check stands.entry.here.setting (stands_here stands.entry) bodies) }
{
    let Stands { here, declared, .. } = stands;
    let patterns = &case.patterns;
    let names = names_of(here.alloc, Patterns::Many(patterns))?;
    let declared = hidden_by(here.alloc, declared, names.as_slice())?;
    let scopes = scopes_behind(here.alloc, here.setting, here.locals, &all.form, patterns)?;
    Ok(Bodies {
        body: &case.body,
        scopes,
        next: 0,
        declared,
        all,
    })
}

/// What stands behind the patterns of an alternative, in the scopes that are left; then the other alternatives.
pub fn bodies_next<'t>(
    stands: Stands<'_>,
    bodies: Bodies<'t>,
    refusals: &mut Refusals,
) -> Result<Next<'t>, OutOfMemory>
    ensures { IfOk result (λ n. refused (first_in refusals.old) (bodies_check stands.entry.here.setting (stands_here stands.entry) bodies.entry) ≡ refused (first_in refusals.new) (next_check stands.entry.here.setting stands.entry.returned.now n)) }
{
    let Bodies {
        body,
        scopes,
        next,
        declared,
        all,
    } = bodies;
    match scopes.as_slice().get(next) {
        Some(scope) => {
            let scope = scope.copy()?;
            let bodies = Bodies {
                body,
                scopes,
                next: next + 1,
                declared,
                all,
            };
            body_next(stands, scope, bodies)
        }
        None => cases_next(stands, all, refusals),
    }
}

// What stands behind the patterns, in one of the scopes.
fn body_next<'t>(
    stands: Stands<'_>,
    scope: Locals,
    bodies: Bodies<'t>,
) -> Result<Next<'t>, OutOfMemory>
    ensures { IfOk result (λ n. body_check stands.entry.here.setting (stands_here stands.entry) (at stands.entry.here.setting scope) bodies.entry ≡ next_check stands.entry.here.setting stands.entry.returned.now n) }
{
    let body = bodies.body;
    let inside = Standing {
        locals: scope,
        declared: bodies.declared.copy()?,
    };
    let task = Task::Bodies(bodies);
    let standing = kept(stands)?;
    Ok(then_next(body, inside, Pending { task, standing }))
}
