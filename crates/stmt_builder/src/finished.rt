// Statements of their parts, in boxes.

ghost use Rattle.std.specs.Prelude.{◌≡◌, ◌++◌, ◌∷◌, [], map, IfOk, OnOk};
ghost use Rattle.abstract_syntax.specs.Statements.{always_after, block, cases_then, if_then, in_parallel, trap_exit, trap_exits};
ghost use Rattle.expr_tree.specs.View.{boxed_view, pattern_view};
ghost use Rattle.vdm_tree.specs.StmtView.{boxed_stmt, dcl_view, maybe_stmt};
ghost use Rattle.stmt_reading.specs.Statements.{handlers_tree, stmts_tree};
ghost use Rattle.stmt_parts.specs.Lists.{patterns_view};
ghost use Rattle.stmt_builder.specs.Lists.{branch_rows, branches_view, case_rows, cases_view, handlers_view, stmts_view, two_view};

use crate::found::{Cases, Two};
use expr_tree::{Expr, Pattern};
use std::alloc::Global;
use stmt_parts::boxed;
use vdm_kinds::{OutOfMemory, Place};
use vdm_tree::{Dcl, Handler, Stmt, StmtBranch, StmtCase};

/// One statement more.
pub(crate) fn push_stmt(statements: &mut Vec<Stmt>, statement: Box<Stmt>) -> Result<(), OutOfMemory>
    ensures { OnOk result (stmts_view statements.new ≡ stmts_view statements.old ++ boxed_stmt statement ∷ []) }
{
    Ok(statements.push(Box::into_inner(statement))?)
}

/// One `elseif` more.
pub(crate) fn push_branch(
    branches: &mut Vec<StmtBranch>,
    condition: Box<Expr>,
    body: Box<Stmt>,
) -> Result<(), OutOfMemory>
    ensures { OnOk result (branch_rows branches.new ≡ branch_rows branches.old ++ (boxed_view condition, boxed_stmt body) ∷ []) }
{
    Ok(branches.push(StmtBranch::new(condition, body))?)
}

/// One alternative of `cases` more.
pub(crate) fn push_case(
    cases: &mut Vec<StmtCase>,
    patterns: Vec<Pattern>,
    body: Box<Stmt>,
) -> Result<(), OutOfMemory>
    ensures { OnOk result (case_rows cases.new ≡ case_rows cases.old ++ (patterns_view patterns, boxed_stmt body) ∷ []) }
{
    Ok(cases.push(StmtCase::new(patterns, body))?)
}

/// One alternative of `tixe` more.
pub(crate) fn push_handler(
    handlers: &mut Vec<Handler>,
    pattern: Box<Pattern>,
    body: Box<Stmt>,
) -> Result<(), OutOfMemory>
    ensures { OnOk result (handlers_view handlers.new ≡ handlers_view handlers.old ++ (pattern_view pattern.value, boxed_stmt body) ∷ []) }
{
    Ok(handlers.push(Handler::new(pattern, body))?)
}

/// The block of these local variables and statements.
#[tactic(auto, using(crate::proofs::Trees::same_stmts))]
pub(crate) fn block_of(
    alloc: Global,
    locals: Vec<Dcl>,
    statements: Vec<Stmt>,
    place: Place,
) -> Result<Box<Stmt>, OutOfMemory>
    ensures { IfOk result (λ s. boxed_stmt s ≡ block (map dcl_view locals.items) (stmts_tree (stmts_view statements)) place) }
{
    boxed(alloc, Stmt::block(locals, statements, place))
}

/// `if condition then body elseifs else otherwise`
pub(crate) fn if_of(
    alloc: Global,
    condition: Box<Expr>,
    body: Box<Stmt>,
    elseifs: Vec<StmtBranch>,
    otherwise: Option<Box<Stmt>>,
    place: Place,
) -> Result<Box<Stmt>, OutOfMemory>
    ensures { IfOk result (λ s. boxed_stmt s ≡ if_then (boxed_view condition) (boxed_stmt body) (branches_view elseifs) (maybe_stmt otherwise) place) }
{
    boxed(
        alloc,
        Stmt::if_else(condition, body, elseifs, otherwise, place),
    )
}

/// `cases subject: cases, others -> others end`
pub(crate) fn cases_of(
    alloc: Global,
    subject: Box<Expr>,
    found: Cases,
    place: Place,
) -> Result<Box<Stmt>, OutOfMemory>
    ensures { IfOk result (λ s. boxed_stmt s ≡ cases_then (boxed_view subject) (cases_view found).0 (cases_view found).1 place) }
{
    boxed(
        alloc,
        Stmt::cases(subject, found.cases, found.others, place),
    )
}

/// `trap pattern with handler in body`
pub(crate) fn trap_of(
    alloc: Global,
    pattern: Box<Pattern>,
    both: Two,
    place: Place,
) -> Result<Box<Stmt>, OutOfMemory>
    ensures { IfOk result (λ s. boxed_stmt s ≡ trap_exit (pattern_view pattern.value) (two_view both).0 (two_view both).1 place) }
{
    boxed(alloc, Stmt::trap(pattern, both.first, both.second, place))
}

/// `tixe {handlers} in body`
#[tactic(auto, using(crate::proofs::Trees::same_handlers))]
pub(crate) fn tixe_of(
    alloc: Global,
    handlers: Vec<Handler>,
    body: Box<Stmt>,
    place: Place,
) -> Result<Box<Stmt>, OutOfMemory>
    ensures { IfOk result (λ s. boxed_stmt s ≡ trap_exits (handlers_tree (handlers_view handlers)) (boxed_stmt body) place) }
{
    boxed(alloc, Stmt::tixe(handlers, body, place))
}

/// `always last in body`
pub(crate) fn always_of(alloc: Global, both: Two, place: Place) -> Result<Box<Stmt>, OutOfMemory>
    ensures { IfOk result (λ s. boxed_stmt s ≡ always_after (two_view both).0 (two_view both).1 place) }
{
    boxed(alloc, Stmt::always(both.first, both.second, place))
}

/// `|| (statements)`
#[tactic(auto, using(crate::proofs::Trees::same_stmts))]
pub(crate) fn parallel_of(
    alloc: Global,
    statements: Vec<Stmt>,
    place: Place,
) -> Result<Box<Stmt>, OutOfMemory>
    ensures { IfOk result (λ s. boxed_stmt s ≡ in_parallel (stmts_tree (stmts_view statements)) place) }
{
    boxed(alloc, Stmt::parallel(statements, place))
}
