// What is done with the choices of elements.

use crate::strict::Strict;
use expr_tree::Expr;

/// What is evaluated for each choice of a comprehension: an element, or a key and its value.
#[derive(Clone, Copy)]
pub enum Elements<'t> {
    One(&'t Box<Expr>),
    Two(&'t Box<Expr>, &'t Box<Expr>),
}

/// What is done with the choices of elements.
#[derive(Clone, Copy)]
pub enum Chooser<'t> {
    /// A comprehension, with its condition.
    Collects(Strict, Elements<'t>, &'t Option<Box<Expr>>),
    /// `forall`, `exists`, `exists1` and `iota`, each with its condition.
    ForEach(&'t Box<Expr>),
    ForSome(&'t Box<Expr>),
    ForOne(&'t Box<Expr>),
    TheOne(&'t Box<Expr>),
    /// `let be`: the condition, and the expression for the first choice that fulfils it.
    TakesFirst(&'t Option<Box<Expr>>, &'t Box<Expr>),
    /// `let be` of a statement: the condition. The names of the first choice that fulfils it stay bound.
    Finds(&'t Option<Box<Expr>>),
}
