// What has to hold of a value beside its shape.

use expr_tree::{TypeDef, TypeExpr};
use vdm_kinds::Name;
use vdm_values::Value;

/// What has to hold of a value that has the shape of a type.
#[derive(Drop)]
pub enum Test<'t> {
    /// The invariant of the type has to hold of the value.
    Holds(&'t TypeDef, Value),
    /// One of the types, in the class of this name, has to take the value. They are tried in order, and the value has the shape of
    /// the first.
    OneHolds(Name, &'t [TypeExpr], Value),
}
