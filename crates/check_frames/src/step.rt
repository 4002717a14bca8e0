// What is done with the form of a part.

use crate::after::After;
use crate::bind_step::BindStep;
use crate::choice::Choice;
use crate::inside::Body;
use crate::rest::Rest;
use crate::way::Way;
use check_patterns::handed::check_scopes::Locals;
use check_shapes::{Seen, Shape};
use expr_tree::Expr;
use vdm_kinds::{NameAt, Place};

/// What is done with the form of a part, and what is bound where that stands.
#[derive(Drop)]
pub struct Frame<'t> {
    pub step: Step<'t>,
    pub locals: Locals,
}

/// What is done with the form of a part.
#[derive(Drop)]
pub enum Step<'t> {
    /// A part that stands at `place`, behind others that are done.
    Part {
        shape: Shape<'t>,
        done: Vec<Seen>,
        place: Place,
        rest: Rest<'t>,
    },
    /// What is applied, at `head_place`, to the arguments at `place`.
    Head {
        head_place: Place,
        arguments: &'t [Expr],
        place: Place,
    },
    /// What a member is selected of.
    Target {
        target_place: Place,
        named: NameAt,
        way: Way<'t>,
    },
    /// ... with the class before its name
    TargetOfClass {
        target_place: Place,
        class: NameAt,
        named: NameAt,
        way: Way<'t>,
    },
    /// A condition, and what stands under it.
    Condition {
        place: Place,
        body: Body<'t>,
    },
    /// An expression in brackets in a pattern; those from the number on follow, and then the rest.
    Given {
        exprs: Vec<&'t Box<Expr>>,
        next: usize,
        after: After<'t>,
    },
    /// What patterns are matched with.
    Bind(BindStep<'t>),
    /// A value that is chosen, or what it is chosen by.
    Choice(Choice<'t>),
}
