// What an assignment writes to.

use type_tree::TypeExpr;
use vdm_kinds::{Name, VarRef};

/// What an assignment writes to, with its type.
#[derive(Clone, Copy)]
pub enum Goal<'t> {
    /// The newest local variable of the name.
    Local(Name, &'t TypeExpr),
    /// A variable of the object of this number.
    Variable(u32, VarRef, &'t TypeExpr),
}
