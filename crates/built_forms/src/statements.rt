// Statements: the first form that is not built. Each function recurses once a level.

ghost use Rattle.std.specs.Prelude.{◌≡◌, map};
ghost use Rattle.text_phases.specs.Built.{unbuilt_in_stmt, unbuilt_in_stmts, unbuilt_in_maybe_stmt, unbuilt_in_branch_stmts, unbuilt_in_case_stmts, unbuilt_in_handlers};
ghost use Rattle.vdm_tree.specs.StmtView.{stmt_view, stmt_views, stmt_trees, stmt_branch_view, stmt_branch_trees, stmt_case_view, stmt_case_trees, handler_view, handler_trees, maybe_stmt};
ghost use Rattle.built_forms.specs.Groups.{in_simple, in_bound, in_ordered};

use crate::definitions::unbuilt_if_given;
use crate::targets::{unbuilt_in_assignments, unbuilt_in_locals, unbuilt_in_target};
use built_exprs::{
    unbuilt_in_bind, unbuilt_in_call, unbuilt_in_definitions, unbuilt_in_expr, unbuilt_in_pattern,
    unbuilt_in_patterns,
};
use vdm_kinds::Place;
use vdm_tree::{Handler, Stmt, StmtBranch, StmtCase};

/// Where the first form of a statement stands that is not built.
#[cycle(unbuilt)]
#[tactic(auto, using(crate::proofs::Groups::three_groups))]
pub(crate) fn unbuilt_in_stmt(statement: &Stmt) -> Option<Place>
    ensures { result ≡ unbuilt_in_stmt (stmt_view statement.now) }
{
    in_simple(statement).or(in_bound(statement).or(in_ordered(statement)))
}

/// In a statement that has no other in it.
fn in_simple(statement: &Stmt) -> Option<Place>
    ensures { result ≡ in_simple (stmt_view statement.now) }
{
    match statement {
        Stmt::Assign(target, value, _) => unbuilt_in_target(target).or(unbuilt_in_expr(value)),
        Stmt::AssignTogether(assignments, _) => unbuilt_in_assignments(assignments),
        Stmt::Call(application, _) => unbuilt_in_call(application),
        Stmt::Return(value, _) => unbuilt_if_given(value),
        Stmt::Exit(value, _) => unbuilt_if_given(value),
        Stmt::Start(object, _) => unbuilt_in_expr(object),
        Stmt::StartList(objects, _) => unbuilt_in_expr(objects),
        _ => None,
    }
}

/// In one that has patterns.
#[cycle(unbuilt)]
fn in_bound(statement: &Stmt) -> Option<Place>
    ensures { result ≡ in_bound (stmt_view statement.now) }
{
    match statement {
        Stmt::Let(definitions, body, _) => unbuilt_in_definitions(definitions).or(unbuilt_in_stmt(
            body,
        )),
        Stmt::LetBe(bind, condition, body, _) => {
            unbuilt_in_bind(bind).or(unbuilt_if_given(condition).or(unbuilt_in_stmt(body)))
        }
        Stmt::Def(pattern, value, body, _) => {
            unbuilt_in_pattern(pattern).or(unbuilt_in_expr(value).or(unbuilt_in_stmt(body)))
        }
        Stmt::Cases(subject, cases, others, _) => {
            unbuilt_in_expr(subject).or(unbuilt_in_cases(cases).or(unbuilt_in_maybe(others)))
        }
        Stmt::ForSet(pattern, set, body, _) => {
            unbuilt_in_pattern(pattern).or(unbuilt_in_expr(set).or(unbuilt_in_stmt(body)))
        }
        Stmt::ForSequence(pattern, items, body, _) => {
            unbuilt_in_pattern(pattern).or(unbuilt_in_expr(items).or(unbuilt_in_stmt(body)))
        }
        Stmt::Trap(pattern, handler, body, _) => {
            unbuilt_in_pattern(pattern).or(unbuilt_in_stmt(handler).or(unbuilt_in_stmt(body)))
        }
        Stmt::Tixe(handlers, body, _) => { unbuilt_in_handlers(handlers).or(unbuilt_in_stmt(body)) }
        _ => None,
    }
}

/// In any other.
#[cycle(unbuilt)]
fn in_ordered(statement: &Stmt) -> Option<Place>
    ensures { result ≡ in_ordered (stmt_view statement.now) }
{
    match statement {
        Stmt::Block(locals, statements, _) => {
            unbuilt_in_locals(locals).or(unbuilt_in_stmts(statements))
        }
        Stmt::If(condition, body, elseifs, otherwise, _) => unbuilt_in_expr(condition).or(
            unbuilt_in_stmt(body).or(unbuilt_in_branches(elseifs).or(unbuilt_in_maybe(otherwise))),
        ),
        Stmt::While(condition, body, _) => unbuilt_in_expr(condition).or(unbuilt_in_stmt(body)),
        Stmt::ForNumbers(_, _, first, last, by, body, _) => unbuilt_in_expr(first).or(
            unbuilt_in_expr(last).or(unbuilt_if_given(by).or(unbuilt_in_stmt(body))),
        ),
        Stmt::Always(last, body, _) => unbuilt_in_stmt(last).or(unbuilt_in_stmt(body)),
        Stmt::Parallel(statements, _) => unbuilt_in_stmts(statements),
        _ => None,
    }
}

/// In statements one after the other.
#[cycle(unbuilt)]
fn unbuilt_in_stmts(statements: &[Stmt]) -> Option<Place>
    ensures { result ≡ unbuilt_in_stmts (stmt_trees (stmt_views statements.now)) }
{
    for statement in statements {
        if let Some(place) = unbuilt_in_stmt(statement) {
            return Some(place);
        }
    }
    None
}

/// In a statement that may be left out.
#[cycle(unbuilt)]
fn unbuilt_in_maybe(statement: &Option<Box<Stmt>>) -> Option<Place>
    ensures { result ≡ unbuilt_in_maybe_stmt (maybe_stmt statement.now) }
{
    match statement {
        Some(statement) => unbuilt_in_stmt(statement),
        None => None,
    }
}

/// In each `elseif`.
#[cycle(unbuilt)]
fn unbuilt_in_branches(branches: &[StmtBranch]) -> Option<Place>
    ensures { result ≡ unbuilt_in_branch_stmts (stmt_branch_trees (map stmt_branch_view branches.now)) }
{
    for branch in branches {
        let found = unbuilt_in_expr(&branch.condition).or(unbuilt_in_stmt(&branch.body));
        if let Some(place) = found {
            return Some(place);
        }
    }
    None
}

/// In each alternative of a `cases`.
#[cycle(unbuilt)]
fn unbuilt_in_cases(cases: &[StmtCase]) -> Option<Place>
    ensures { result ≡ unbuilt_in_case_stmts (stmt_case_trees (map stmt_case_view cases.now)) }
{
    for case in cases {
        let found = unbuilt_in_patterns(&case.patterns).or(unbuilt_in_stmt(&case.body));
        if let Some(place) = found {
            return Some(place);
        }
    }
    None
}

/// In each handler of a `tixe`.
#[cycle(unbuilt)]
fn unbuilt_in_handlers(handlers: &[Handler]) -> Option<Place>
    ensures { result ≡ unbuilt_in_handlers (handler_trees (map handler_view handlers.now)) }
{
    for handler in handlers {
        let found = unbuilt_in_pattern(&handler.pattern).or(unbuilt_in_stmt(&handler.body));
        if let Some(place) = found {
            return Some(place);
        }
    }
    None
}
