// What stands inside binds.

use crate::rest::Rest;
use check_shapes::Shape;
use expr_tree::Expr;
use type_forms::Form;

/// What is checked inside binds, under their condition where there is one.
#[derive(Drop)]
pub struct Inside<'t> {
    pub condition: Option<&'t Box<Expr>>,
    pub body: Body<'t>,
}

/// What is checked once the condition is.
#[derive(Drop)]
pub enum Body<'t> {
    /// The parts of the node, of this shape.
    Parts(Shape<'t>, Rest<'t>),
    /// An expression whose form is the node's.
    Expr(&'t Box<Expr>),
    /// Nothing: the form is known.
    Known(Form),
}
