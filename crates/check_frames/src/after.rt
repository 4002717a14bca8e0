// What comes behind patterns.

use crate::bind_step::Binds;
use crate::cases::CaseValues;
use check_patterns::handed::check_scopes::Locals;
use expr_tree::{Defined, Expr};
use type_forms::Form;

/// What comes once the expressions in brackets in patterns are checked, and what is bound there.
#[derive(Drop)]
pub struct After<'t> {
    pub goal: Goal<'t>,
    pub locals: Locals,
}

/// What comes behind patterns.
#[derive(Drop)]
pub enum Goal<'t> {
    /// Further binds, and what stands inside.
    Binds(Binds<'t>),
    /// Further definitions of a `let`, and its body.
    Definitions {
        definitions: &'t [Defined],
        body: &'t Box<Expr>,
    },
    /// A condition, and then this form.
    Iota {
        condition: &'t Box<Expr>,
        form: Form,
    },
    /// What stands behind the patterns of a `cases`, in each of its scopes, and further alternatives.
    CaseValues {
        known: Form,
        values: CaseValues<'t>,
    },
    /// The body of a `def`.
    Body(&'t Box<Expr>),
}
