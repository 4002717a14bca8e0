// Statements that bind or declare names for others.

ghost use Rattle.std.specs.Prelude.{◌≡◌, IfOk, map};
ghost use Rattle.vdm_kinds.specs.declared.place.Place.{Place as PlaceOf};
ghost use Rattle.abstract_syntax.specs.Statements.{block, trap_exit};
ghost use Rattle.expr_tree.specs.View.{pattern_view};
ghost use Rattle.vdm_tree.specs.StmtView.{boxed_stmt, dcl_view, stmt_trees, stmt_view, stmt_views};
ghost use Rattle.spec_checks.specs.Statements.{check_stmt};
ghost use Rattle.stmt_pending.specs.Below.check_scopes.specs.Told.{first_in};
ghost use Rattle.stmt_pending.specs.Below.check_frames.specs.Meant.{spec_here};
ghost use Rattle.stmt_pending.specs.Below.stmt_scopes.specs.Standing.{stands_here};
ghost use Rattle.stmt_pending.specs.Below.stmt_scopes.specs.Refused.{refused};
ghost use Rattle.stmt_topics.specs.Topics.{topic_of};
ghost use Rattle.stmt_topics.specs.declared.topic.Topic.TheVariants.{Bound};
ghost use Rattle.stmt_pending.specs.Meant.{next_check};

use crate::lets::{def_next, let_be_next, let_next};
use crate::loops::{numbers_next, sequence_next, set_next};
use expr_tree::Pattern;
use stmt_exprs::{behind_declarations, inside_pattern, refuse_pattern};
use stmt_pending::handed::check_scopes::Refusals;
use stmt_pending::handed::stmt_scopes::{Stands, kept};
use stmt_pending::{Next, Pending, Task, pending_in, then_next};
use type_forms::Form;
use vdm_kinds::OutOfMemory;
use vdm_tree::{Dcl, Stmt};

/// What is refused before the statements inside is noted, and these come next.
pub fn bound_next<'t>(
    stands: Stands<'_>,
    stmt: &'t Stmt,
    refusals: &mut Refusals,
) -> Result<Next<'t>, OutOfMemory>
    requires { topic_of (stmt_view stmt.now) ≡ Bound }
    ensures { IfOk result (λ next. refused (first_in refusals.old) (check_stmt (spec_here stands.entry.here) (stands_here stands.entry) (stmt_view stmt.entry.now)) ≡ refused (first_in refusals.new) (next_check stands.entry.here.setting stands.entry.returned.now next)) }
{
    match stmt {
        Stmt::Block(locals, stmts, _) => block_next(stands, locals, stmts, refusals),
        Stmt::Let(definitions, body, _) => let_next(stands, definitions, body, refusals),
        Stmt::LetBe(bind, condition, body, _) => {
            let_be_next(stands, bind, condition, body, refusals)
        }
        Stmt::Def(pattern, value, body, _) => def_next(stands, pattern, value, body, refusals),
        Stmt::ForNumbers(name, _, first, last, step, body, _) => {
            numbers_next(stands, *name, first, last, step, body, refusals)
        }
        Stmt::ForSet(pattern, set, body, _) => set_next(stands, pattern, set, body, refusals),
        Stmt::ForSequence(pattern, sequence, body, _) => {
            sequence_next(stands, pattern, sequence, body, refusals)
        }
        Stmt::Trap(pattern, handler, body, _) => {
            trap_next(stands, pattern, handler, body, refusals)
        }
        _ => Ok(Next::Nothing),
    }
}

// `(dcl x : T := e; s; t)`
fn block_next<'t>(
    stands: Stands<'_>,
    locals: &Vec<Dcl>,
    stmts: &'t Vec<Stmt>,
    refusals: &mut Refusals,
) -> Result<Next<'t>, OutOfMemory>
    ensures { (place : PlaceOf) → IfOk result (λ next. refused (first_in refusals.old) (check_stmt (spec_here stands.entry.here) (stands_here stands.entry) (block (map dcl_view locals.now.items) (stmt_trees (stmt_views stmts.entry.now.items)) place)) ≡ refused (first_in refusals.new) (next_check stands.entry.here.setting stands.entry.returned.now next)) }
{
    let standing = behind_declarations(stands, locals.as_slice(), refusals)?;
    let task = Task::Stmts(stmts.as_slice());
    Ok(Next::One(Pending { task, standing }))
}

// `trap p with s in t`: what is caught may have any form.
fn trap_next<'t>(
    stands: Stands<'_>,
    pattern: &Box<Pattern>,
    handler: &'t Box<Stmt>,
    body: &'t Box<Stmt>,
    refusals: &mut Refusals,
) -> Result<Next<'t>, OutOfMemory>
    ensures { (place : PlaceOf) → IfOk result (λ next. refused (first_in refusals.old) (check_stmt (spec_here stands.entry.here) (stands_here stands.entry) (trap_exit (pattern_view pattern.now.value) (boxed_stmt handler.entry.now) (boxed_stmt body.entry.now) place)) ≡ refused (first_in refusals.new) (next_check stands.entry.here.setting stands.entry.returned.now next)) }
{
    refuse_pattern(stands.here, pattern, refusals)?;
    let inside = inside_pattern(stands, Form::any(), pattern)?;
    let rest = pending_in(body, kept(stands)?);
    Ok(then_next(handler, inside, rest))
}
