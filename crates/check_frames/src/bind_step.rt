// What is done with the form of what patterns are matched with.

use crate::inside::Inside;
use check_patterns::{LocalForm, Patterns};
use expr_tree::{Bind, Defined, Expr, Pattern};
use vdm_kinds::Place;

/// What is done with the form of what patterns are matched with.
#[derive(Drop)]
pub enum BindStep<'t> {
    /// The set of a bind at `place`, and the binds that follow.
    Set {
        patterns: Patterns<'t>,
        place: Place,
        rest: Binds<'t>,
    },
    /// The set of an `iota`.
    Iota {
        patterns: Patterns<'t>,
        place: Place,
        condition: &'t Box<Expr>,
    },
    /// The value of the first of these definitions, at `place`; then the others, and the body.
    Defined {
        definitions: &'t [Defined],
        place: Place,
        body: &'t Box<Expr>,
    },
    /// The value of a `def`.
    Def {
        pattern: &'t Box<Pattern>,
        body: &'t Box<Expr>,
    },
}

/// The binds that follow behind what earlier ones bind, and what stands inside all of them.
#[derive(Drop)]
pub struct Binds<'t> {
    pub found: Vec<LocalForm>,
    pub more: &'t [Bind],
    pub inside: Inside<'t>,
}
