// What stands behind its operand.

ghost use Rattle.std.specs.Prelude.{◌≡◌};
ghost use Rattle.abstract_syntax.specs.Expressions.{apply, subsequence, select, select_of_class, select_part};
ghost use Rattle.expr_tree.specs.View.{view_of, views_of, expr_trees};

use crate::expr::Expr;
use vdm_kinds::{Name, Place};

impl Expr {
    /// The application, whose `(` is at the place.
    pub fn apply(head: Box<Expr>, arguments: Vec<Expr>, place: Place) -> Expr
        ensures { view_of result ≡ apply (view_of head.value) (expr_trees (views_of arguments.items)) place }
    {
        Expr::Apply(head, arguments, place)
    }

    /// `target(first, ..., last)`, whose `(` is at the place.
    pub fn subsequence(target: Box<Expr>, first: Box<Expr>, last: Box<Expr>, place: Place) -> Expr
        ensures { view_of result ≡ subsequence (view_of target.value) (view_of first.value) (view_of last.value) place }
    {
        Expr::Subsequence(target, first, last, place)
    }

    /// The member whose name stands at `name_place`, behind a `.` at `place`.
    pub fn select(target: Box<Expr>, name: Name, name_place: Place, place: Place) -> Expr
        ensures { view_of result ≡ select (view_of target.value) name name_place place }
    {
        Expr::Select(target, name, name_place, place)
    }

    /// The member of the class, whose names stand at these places, behind a `.` at `place`.
    pub fn select_of_class(
        target: Box<Expr>,
        class: Name,
        class_place: Place,
        name: Name,
        name_place: Place,
        place: Place,
    ) -> Expr
        ensures { view_of result ≡ select_of_class (view_of target.value) class class_place name name_place place }
    {
        Expr::SelectOfClass(target, class, class_place, name, name_place, place)
    }

    /// The part of this number, behind a `.#` at the place.
    pub fn select_part(target: Box<Expr>, number: i128, place: Place) -> Expr
        ensures { view_of result ≡ select_part (view_of target.value) number place }
    {
        Expr::SelectPart(target, number, place)
    }
}
