// What follows from what was checked.

ghost use Rattle.std.specs.Prelude.{◌≡◌, IfOk};
ghost use Rattle.vdm_tree.specs.StmtView.{boxed_stmt, maybe_stmt};
ghost use Rattle.form_meaning.specs.Forms.{FormTree};
ghost use Rattle.class_checks.specs.Results.{after};
ghost use Rattle.spec_checks.specs.Statements.{check_stmt};
ghost use Rattle.stmt_scopes.specs.Below.check_scopes.specs.Told.{spec_in};
ghost use Rattle.stmt_scopes.specs.Below.check_scopes.specs.declared.setting.Setting.{Setting as AnySetting};
ghost use Rattle.stmt_scopes.specs.Below.check_frames.specs.Meant.{spec_here};
ghost use Rattle.stmt_scopes.specs.Standing.{stands_at, stands_here};
ghost use Rattle.stmt_scopes.specs.declared.returned.Returned.{Returned as AnyReturned};
ghost use Rattle.stmt_pending.specs.Meant.{last_check, next_check, pending_check};

use crate::pending::{Pending, pending_in};
use stmt_scopes::{Standing, Stands, kept};
use vdm_kinds::OutOfMemory;
use vdm_tree::Stmt;

/// What is to be checked next.
#[derive(Drop)]
pub enum Next<'t> {
    Nothing,
    One(Pending<'t>),
    /// The first, and then the other.
    Two(Pending<'t>, Pending<'t>),
}

/// A statement that stands there.
pub fn next_in<'t>(stmt: &'t Box<Stmt>, standing: Standing) -> Next<'t>
    ensures { (setting : AnySetting) (returned : AnyReturned) → next_check setting returned result ≡ check_stmt (spec_in setting) (stands_at setting returned standing) (boxed_stmt stmt.entry.now) }
{
    Next::One(pending_in(stmt, standing))
}

/// A statement that stands there, and then the rest.
pub fn then_next<'t>(stmt: &'t Box<Stmt>, standing: Standing, rest: Pending<'t>) -> Next<'t>
    ensures { (setting : AnySetting) (returned : AnyReturned) → next_check setting returned result ≡ after (check_stmt (spec_in setting) (stands_at setting returned standing) (boxed_stmt stmt.entry.now)) (λ (form : FormTree). pending_check setting returned rest.entry) }
{
    Next::Two(pending_in(stmt, standing), rest)
}

/// The last statement, which may be left out.
pub fn maybe_next<'t>(
    stands: Stands<'_>,
    stmt: &'t Option<Box<Stmt>>,
) -> Result<Next<'t>, OutOfMemory>
    ensures { IfOk result (λ next. (last_check (spec_here stands.entry.here) (stands_here stands.entry) (maybe_stmt stmt.entry.now)).refusals ≡ (next_check stands.entry.here.setting stands.entry.returned.now next).refusals) }
{
    match stmt {
        Some(stmt) => Ok(next_in(stmt, kept(stands)?)),
        None => Ok(Next::Nothing),
    }
}
