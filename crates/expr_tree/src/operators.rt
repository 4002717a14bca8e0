// Operators on expressions, and brackets.

ghost use Rattle.std.specs.Prelude.{◌≡◌};
ghost use Rattle.abstract_syntax.specs.Expressions.{bracketed, prefixed, joined};
ghost use Rattle.expr_tree.specs.View.{view_of};

use crate::expr::Expr;
use vdm_kinds::{Place, Sign};

impl Expr {
    /// `(inner)`, whose `(` is at the place.
    pub fn bracketed(inner: Box<Expr>, place: Place) -> Expr
        ensures { view_of result ≡ bracketed (view_of inner.value) place }
    {
        Expr::Bracketed(inner, place)
    }

    /// The operator at its place, before its operand.
    pub fn prefix(sign: Sign, operand: Box<Expr>, place: Place) -> Expr
        ensures { view_of result ≡ prefixed sign (view_of operand.value) place }
    {
        Expr::Prefix(sign, operand, place)
    }

    /// The operator at its place, between its operands.
    pub fn infix(left: Box<Expr>, sign: Sign, right: Box<Expr>, place: Place) -> Expr
        ensures { view_of result ≡ joined (view_of left.value) sign (view_of right.value) place }
    {
        Expr::Infix(left, sign, right, place)
    }
}
