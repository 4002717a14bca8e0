// Local variables.

use expr_tree::Expr;
use type_tree::TypeExpr;
use vdm_kinds::{Name, Place};

/// A local variable.
#[derive(Drop)]
pub struct Local {
    pub name: Name,
    /// Where its name stands.
    pub name_place: Place,
    pub declared: TypeExpr,
    /// Its initial value, where one is given.
    pub initial: Option<Box<Expr>>,
}

/// Local variables behind one word `dcl`, at the place of that word.
#[derive(Drop)]
pub struct Dcl {
    pub locals: Vec<Local>,
    pub place: Place,
}
