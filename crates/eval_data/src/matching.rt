// What is done where a pattern meets a value.

use crate::here::Here;
use expr_tree::{Case, Defined, Expr, Pattern};

/// A pattern of a definition: the definitions behind it, and the expression for which they are bound.
#[derive(Clone, Copy)]
pub struct MetDefinition<'t> {
    pub pattern: &'t Box<Pattern>,
    pub more: &'t [Defined],
    pub body: &'t Box<Expr>,
    /// How many locals stand before those that are bound.
    pub count: usize,
}

/// A pattern of an alternative, with those behind it: the expression for them, and the alternatives behind that.
#[derive(Clone, Copy)]
pub struct MetCase<'t> {
    pub pattern: &'t Pattern,
    pub patterns: &'t [Pattern],
    pub body: &'t Box<Expr>,
    pub more: &'t [Case],
    pub others: &'t Option<Box<Expr>>,
    /// How many locals stand before those that are bound.
    pub count: usize,
}

/// What is done where a pattern meets a value.
#[derive(Clone, Copy)]
pub enum Met<'t> {
    Definition(Here<'t>, MetDefinition<'t>),
    Case(Here<'t>, MetCase<'t>),
}
