// What is written of a statement, piece by piece.

use expr_tree::{Bind, Defined, Expr, Pattern};
use vdm_kinds::Name;
use vdm_tree::{Assignment, Dcl, Handler, Stmt, StmtBranch, StmtCase, Target};

/// A part of a statement, or what stands between parts.
#[derive(Clone, Copy)]
pub(crate) enum Part<'t> {
    Text(&'static str),
    Name(Name),
    Expr(&'t Expr),
    Pattern(&'t Pattern),
    Patterns(&'t [Pattern]),
    /// An expression that may be left out.
    Given(&'t Option<Box<Expr>>),
    Bind(&'t Bind),
    Definitions(&'t [Defined]),
    Target(&'t Target),
    Assignments(&'t [Assignment]),
    Declared(&'t [Dcl]),
    Stmt(&'t Stmt),
    /// A statement that may be left out.
    Maybe(&'t Option<Box<Stmt>>),
    Stmts(&'t [Stmt]),
    Branches(&'t [StmtBranch]),
    Cases(&'t [StmtCase]),
    Handlers(&'t [Handler]),
}
