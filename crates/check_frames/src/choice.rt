// What is done with the form of a value that is chosen, or of what it is chosen by.

use crate::cases::CaseValues;
use expr_tree::{Branch, Case, Expr};
use type_forms::Form;
use vdm_kinds::Place;

/// What is done with the form of a value that is chosen, or of what it is chosen by.
#[derive(Drop)]
pub enum Choice<'t> {
    /// A condition of an `if` at `place`, and its value.
    If {
        place: Place,
        value: &'t Box<Expr>,
        rest: Branches<'t>,
    },
    /// The value behind such a condition.
    Then {
        rest: Branches<'t>,
    },
    /// The last of several values.
    Last {
        known: Form,
    },
    /// The expression behind `cases`.
    Subject {
        cases: &'t [Case],
        others: &'t Option<Box<Expr>>,
    },
    /// What stands behind several patterns, in one of its scopes; those that are left follow, and further alternatives.
    CaseValue {
        known: Form,
        values: CaseValues<'t>,
    },
}

/// The alternatives of an `if` that follow behind values of the form `known`.
#[derive(Drop)]
pub struct Branches<'t> {
    pub known: Form,
    pub branches: &'t [Branch],
    pub otherwise: &'t Box<Expr>,
}
