// The parts of a node that are still to be checked.

use expr_tree::{Expr, FieldValue, Maplet};

/// The parts of a node that are still to be checked, all in one scope.
#[derive(Clone, Copy)]
pub enum Rest<'t> {
    Nothing,
    One(&'t Box<Expr>),
    Two(&'t Box<Expr>, &'t Box<Expr>),
    Three(&'t Box<Expr>, &'t Box<Expr>, &'t Box<Expr>),
    Items(&'t [Expr]),
    Maplets(&'t [Maplet]),
    /// The value of a pair, and the pairs behind it.
    MapletValue(&'t Box<Expr>, &'t [Maplet]),
    /// The values of these fields, where `changed` are all that are changed.
    FieldValues {
        changed: &'t Vec<FieldValue>,
        values: &'t [FieldValue],
    },
    /// What is changed, and the values of all fields.
    Modified(&'t Box<Expr>, &'t Vec<FieldValue>),
}
