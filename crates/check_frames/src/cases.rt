// What is left of a `cases`.

use check_patterns::handed::check_scopes::Locals;
use expr_tree::{Case, Expr};
use type_forms::Form;

/// The alternatives of a `cases` that follow.
#[derive(Drop)]
pub struct Cases<'t> {
    /// The form of what their patterns are matched with.
    pub form: Form,
    pub cases: &'t [Case],
    pub others: &'t Option<Box<Expr>>,
}

/// What stands behind the patterns of an alternative, in each of its scopes from the number on; and the alternatives behind it.
#[derive(Drop)]
pub struct CaseValues<'t> {
    pub value: &'t Box<Expr>,
    pub scopes: Vec<Locals>,
    pub next: usize,
    pub all: Cases<'t>,
}
