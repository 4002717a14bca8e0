// Expressions whose values are still to come.

use expr_tree::{Expr, FieldValue, Maplet};

/// Expressions whose values are still to come, in order.
#[derive(Drop)]
pub enum Parts<'t> {
    None,
    One(&'t Box<Expr>),
    Two(&'t Box<Expr>, &'t Box<Expr>),
    Three(&'t Box<Expr>, &'t Box<Expr>, &'t Box<Expr>),
    Items(&'t Vec<Expr>, usize),
    Maplets(&'t [Maplet]),
    /// The value of a key, and the pairs behind it.
    MapletValue(&'t Box<Expr>, &'t [Maplet]),
    /// The new values of fields.
    Changes(&'t [FieldValue]),
    /// The expressions in brackets in patterns, from a number on.
    Brackets(Vec<&'t Box<Expr>>, usize),
}
