// What is left of a `cases`.

use stmt_scopes::Declared;
use stmt_scopes::handed::check_scopes::Locals;
use type_forms::Form;
use vdm_tree::{Stmt, StmtCase};

/// The alternatives of a `cases` that follow.
#[derive(Drop)]
pub struct Cases<'t> {
    /// The form of what their patterns are matched with.
    pub form: Form,
    pub cases: &'t [StmtCase],
    pub others: &'t Option<Box<Stmt>>,
}

/// What stands behind the patterns of an alternative, in each of its scopes from the number on; and the alternatives behind it.
#[derive(Drop)]
pub struct Bodies<'t> {
    pub body: &'t Box<Stmt>,
    pub scopes: Vec<Locals>,
    pub next: usize,
    /// Which locals were declared and are not hidden by the patterns.
    pub declared: Declared,
    pub all: Cases<'t>,
}
