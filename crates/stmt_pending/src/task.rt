// What is to be checked.

use crate::bodies::{Bodies, Cases};
use vdm_tree::{Handler, Stmt, StmtBranch};

/// What is to be checked.
#[derive(Drop)]
pub enum Task<'t> {
    Stmt(&'t Stmt),
    /// Statements, one behind the other.
    Stmts(&'t [Stmt]),
    /// The `elseif` of an `if` that are left, and the statement behind `else`.
    Branches {
        branches: &'t [StmtBranch],
        otherwise: &'t Option<Box<Stmt>>,
    },
    /// The alternatives of a `cases` that are left, and the statement behind `others`.
    Cases(Cases<'t>),
    /// What stands behind several patterns, in the scopes that are left; then the alternatives behind it.
    Bodies(Bodies<'t>),
    /// The handlers of a `tixe` that are left, and its body.
    Handlers {
        handlers: &'t [Handler],
        body: &'t Box<Stmt>,
    },
}
