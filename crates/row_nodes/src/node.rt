// What is written of a node: its word, and its parts in written order.

use expr_tree::{
    Bind, Branch, Case, Defined, Expr, FieldValue, Literal, Maplet, MapletPattern, Pattern,
    TypeExpr,
};
use vdm_kinds::{Name, NameAt, TypeName};

/// A part of a node, or what stands between parts.
#[derive(Clone, Copy)]
pub enum Part<'t> {
    None,
    Text(&'static str),
    Name(Name),
    Named(TypeName),
    Number(i128),
    Literal(&'t Literal),
    Expr(&'t Box<Expr>),
    Exprs(&'t Vec<Expr>),
    /// The item of this number.
    ExprAt(&'t Vec<Expr>, usize),
    Maybe(&'t Option<Box<Expr>>),
    Maplets(&'t [Maplet]),
    Fields(&'t [FieldValue]),
    Definitions(&'t [Defined]),
    Branches(&'t [Branch]),
    Cases(&'t [Case]),
    Bind(&'t Bind),
    Binds(&'t [Bind]),
    Names(&'t [NameAt]),
    Pattern(&'t Box<Pattern>),
    Patterns(&'t Vec<Pattern>),
    /// The item of this number.
    PatternAt(&'t Vec<Pattern>, usize),
    MapletPatterns(&'t [MapletPattern]),
    Type(&'t TypeExpr),
    Types(&'t [TypeExpr]),
}

/// The word of a node, and its parts; `Part::None` is no part.
#[derive(Clone, Copy)]
pub struct Node<'t> {
    pub word: &'static str,
    pub first: Part<'t>,
    pub second: Part<'t>,
    pub third: Part<'t>,
    pub fourth: Part<'t>,
}

/// A node without parts.
pub(crate) fn leaf<'t>(word: &'static str) -> Node<'t> {
    let none = Part::None;
    four(word, none, none, none, none)
}

/// A node of one part.
pub(crate) fn one<'t>(word: &'static str, first: Part<'t>) -> Node<'t> {
    let none = Part::None;
    four(word, first, none, none, none)
}

/// A node of two parts.
pub(crate) fn two<'t>(word: &'static str, first: Part<'t>, second: Part<'t>) -> Node<'t> {
    let none = Part::None;
    four(word, first, second, none, none)
}

/// A node of three parts.
pub(crate) fn three<'t>(
    word: &'static str,
    first: Part<'t>,
    second: Part<'t>,
    third: Part<'t>,
) -> Node<'t> {
    let none = Part::None;
    four(word, first, second, third, none)
}

/// A node of four parts.
pub(crate) fn four<'t>(
    word: &'static str,
    first: Part<'t>,
    second: Part<'t>,
    third: Part<'t>,
    fourth: Part<'t>,
) -> Node<'t> {
    Node {
        word,
        first,
        second,
        third,
        fourth,
    }
}
