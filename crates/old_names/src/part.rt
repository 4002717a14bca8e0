// What a walk comes to.

use expr_tree::{Bind, Branch, Case, Defined, Expr, FieldValue, Maplet, MapletPattern, Pattern};
use vdm_kinds::Name;

/// A part of a tree, or a list of parts.
#[derive(Clone, Copy)]
pub(crate) enum Part<'t> {
    Expr(&'t Box<Expr>),
    Exprs(&'t Vec<Expr>),
    MaybeExpr(&'t Option<Box<Expr>>),
    Maplets(&'t [Maplet]),
    FieldValues(&'t [FieldValue]),
    Definitions(&'t [Defined]),
    Branches(&'t [Branch]),
    Cases(&'t [Case]),
    Bind(&'t Bind),
    Binds(&'t [Bind]),
    Pattern(&'t Box<Pattern>),
    Patterns(&'t Vec<Pattern>),
    MapletPatterns(&'t [MapletPattern]),
}

/// The parts of a node or of a list, in text order.
#[derive(Clone, Copy)]
pub(crate) enum Parts<'t> {
    Nothing,
    /// The variable of an `x~`.
    Variable(Name),
    One(Part<'t>),
    Two(Part<'t>, Part<'t>),
    Three(Part<'t>, Part<'t>, Part<'t>),
    Four(Part<'t>, Part<'t>, Part<'t>, Part<'t>),
}
