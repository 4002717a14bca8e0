// Statements that choose between others or stand round them.

ghost use Rattle.std.specs.Prelude.{◌≡◌, IfOk, map};
ghost use Rattle.vdm_kinds.specs.declared.place.Place.{Place as PlaceOf};
ghost use Rattle.abstract_syntax.specs.Statements.{always_after, cases_then, while_do};
ghost use Rattle.expr_tree.specs.View.{boxed_view};
ghost use Rattle.vdm_tree.specs.StmtView.{boxed_stmt, maybe_stmt, stmt_case_trees, stmt_case_view, stmt_view};
ghost use Rattle.spec_checks.specs.Statements.{check_stmt};
ghost use Rattle.stmt_pending.specs.Below.check_scopes.specs.Told.{first_in};
ghost use Rattle.stmt_pending.specs.Below.check_frames.specs.Meant.{spec_here};
ghost use Rattle.stmt_pending.specs.Below.stmt_scopes.specs.Standing.{stands_here};
ghost use Rattle.stmt_pending.specs.Below.stmt_scopes.specs.Refused.{refused};
ghost use Rattle.stmt_topics.specs.Topics.{topic_of};
ghost use Rattle.stmt_topics.specs.declared.topic.Topic.TheVariants.{Chosen};
ghost use Rattle.stmt_pending.specs.Meant.{next_check};

use crate::alternatives::cases_next;
use crate::branches::branch_next;
use crate::handlers::handlers_next;
use crate::stmts::stmts_next;
use expr_tree::Expr;
use stmt_exprs::handed::type_check::form_here;
use stmt_exprs::refuse_wanting;
use stmt_pending::handed::check_scopes::Refusals;
use stmt_pending::handed::check_shapes::Kind;
use stmt_pending::handed::stmt_scopes::{Stands, kept};
use stmt_pending::{Cases, Next, next_in, pending_in, then_next};
use vdm_kinds::OutOfMemory;
use vdm_tree::{Stmt, StmtCase};

/// What is refused before the statements inside is noted, and these come next.
pub fn chosen_next<'t>(
    stands: Stands<'_>,
    stmt: &'t Stmt,
    refusals: &mut Refusals,
) -> Result<Next<'t>, OutOfMemory>
    requires { topic_of (stmt_view stmt.now) ≡ Chosen }
    ensures { IfOk result (λ next. refused (first_in refusals.old) (check_stmt (spec_here stands.entry.here) (stands_here stands.entry) (stmt_view stmt.entry.now)) ≡ refused (first_in refusals.new) (next_check stands.entry.here.setting stands.entry.returned.now next)) }
{
    match stmt {
        Stmt::If(condition, body, elseifs, otherwise, _) => {
            let branches = elseifs.as_slice();
            branch_next(stands, condition, body, branches, otherwise, refusals)
        }
        Stmt::Cases(subject, cases, others, _) => {
            subject_next(stands, subject, cases, others, refusals)
        }
        Stmt::While(condition, body, _) => while_next(stands, condition, body, refusals),
        Stmt::Tixe(handlers, body, _) => {
            handlers_next(stands, handlers.as_slice(), body, refusals)
        }
        Stmt::Always(last, body, _) => always_next(stands, last, body),
        Stmt::Parallel(stmts, _) => stmts_next(stands, stmts.as_slice()),
        _ => Ok(Next::Nothing),
    }
}

// `cases e: p, q -> s, others -> t end`
fn subject_next<'t>(
    stands: Stands<'_>,
    subject: &Box<Expr>,
    cases: &'t Vec<StmtCase>,
    others: &'t Option<Box<Stmt>>,
    refusals: &mut Refusals,
) -> Result<Next<'t>, OutOfMemory>
    ensures { (place : PlaceOf) → IfOk result (λ next. refused (first_in refusals.old) (check_stmt (spec_here stands.entry.here) (stands_here stands.entry) (cases_then (boxed_view subject.now) (stmt_case_trees (map stmt_case_view cases.entry.now.items)) (maybe_stmt others.entry.now) place)) ≡ refused (first_in refusals.new) (next_check stands.entry.here.setting stands.entry.returned.now next)) }
{
    let form = form_here(stands.here, subject, refusals)?;
    let cases = cases.as_slice();
    let all = Cases {
        form,
        cases,
        others,
    };
    cases_next(stands, all, refusals)
}

// `while c do s`
fn while_next<'t>(
    stands: Stands<'_>,
    condition: &Box<Expr>,
    body: &'t Box<Stmt>,
    refusals: &mut Refusals,
) -> Result<Next<'t>, OutOfMemory>
    ensures { (place : PlaceOf) → IfOk result (λ next. refused (first_in refusals.old) (check_stmt (spec_here stands.entry.here) (stands_here stands.entry) (while_do (boxed_view condition.now) (boxed_stmt body.entry.now) place)) ≡ refused (first_in refusals.new) (next_check stands.entry.here.setting stands.entry.returned.now next)) }
{
    refuse_wanting(stands, Kind::Truth, condition, refusals)?;
    Ok(next_in(body, kept(stands)?))
}

// `always s in t`
fn always_next<'t>(
    stands: Stands<'_>,
    last: &'t Box<Stmt>,
    body: &'t Box<Stmt>,
) -> Result<Next<'t>, OutOfMemory>
    ensures { (place : PlaceOf) → IfOk result (λ next. check_stmt (spec_here stands.entry.here) (stands_here stands.entry) (always_after (boxed_stmt last.entry.now) (boxed_stmt body.entry.now) place) ≡ next_check stands.entry.here.setting stands.entry.returned.now next) }
{
    let rest = pending_in(body, kept(stands)?);
    Ok(then_next(last, kept(stands)?, rest))
}
