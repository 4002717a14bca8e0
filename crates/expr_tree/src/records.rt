// Tuples, tokens and records, and tests of types and classes.

ghost use Rattle.std.specs.Prelude.{◌≡◌, map};
ghost use Rattle.abstract_syntax.specs.Expressions.{make_tuple, make_token, make_record, modify_record, is_of_type, is_of_named, is_of_basic, is_of_class, is_of_base_class, same_class, same_base_class, create, history};
ghost use Rattle.type_tree.specs.TypeView.{type_view};
ghost use Rattle.expr_tree.specs.View.{view_of, views_of, expr_trees, field_value_trees, field_value_view};

use crate::expr::Expr;
use crate::parts::FieldValue;
use type_tree::TypeExpr;
use vdm_kinds::{BasicType, Counter, Name, NameAt, Place, TypeName};

impl Expr {
    /// `mk_(parts)`
    pub fn make_tuple(parts: Vec<Expr>, place: Place) -> Expr
        ensures { view_of result ≡ make_tuple (expr_trees (views_of parts.items)) place }
    {
        Expr::MakeTuple(parts, place)
    }

    /// `mk_token(inner)`
    pub fn make_token(inner: Box<Expr>, place: Place) -> Expr
        ensures { view_of result ≡ make_token (view_of inner.value) place }
    {
        Expr::MakeToken(inner, place)
    }

    /// A record of the type of this name.
    pub fn make_record(type_name: TypeName, fields: Vec<Expr>, place: Place) -> Expr
        ensures { view_of result ≡ make_record type_name (expr_trees (views_of fields.items)) place }
    {
        Expr::MakeRecord(type_name, fields, place)
    }

    /// `mu(target, fields)`
    pub fn modify_record(target: Box<Expr>, fields: Vec<FieldValue>, place: Place) -> Expr
        ensures { view_of result ≡ modify_record (view_of target.value) (field_value_trees (map field_value_view fields.items)) place }
    {
        Expr::ModifyRecord(target, fields, place)
    }

    /// `is_(tested, declared)`
    pub fn is_of_type(tested: Box<Expr>, declared: TypeExpr, place: Place) -> Expr
        ensures { view_of result ≡ is_of_type (view_of tested.value) (type_view declared) place }
    {
        Expr::IsOfType(tested, declared, place)
    }

    /// Whether it is of the type of this name.
    pub fn is_of_named(type_name: TypeName, tested: Box<Expr>, place: Place) -> Expr
        ensures { view_of result ≡ is_of_named type_name (view_of tested.value) place }
    {
        Expr::IsOfNamed(type_name, tested, place)
    }

    /// `is_nat(tested)` and its kin.
    pub fn is_of_basic(basic: BasicType, tested: Box<Expr>, place: Place) -> Expr
        ensures { view_of result ≡ is_of_basic basic (view_of tested.value) place }
    {
        Expr::IsOfBasic(basic, tested, place)
    }

    /// `isofclass(class, tested)`, where the class's name stands at `class_place`.
    pub fn is_of_class(class: Name, class_place: Place, tested: Box<Expr>, place: Place) -> Expr
        ensures { view_of result ≡ is_of_class class class_place (view_of tested.value) place }
    {
        Expr::IsOfClass(class, class_place, tested, place)
    }

    /// `isofbaseclass(class, tested)`, where the class's name stands at `class_place`.
    pub fn is_of_base_class(
        class: Name,
        class_place: Place,
        tested: Box<Expr>,
        place: Place,
    ) -> Expr
        ensures { view_of result ≡ is_of_base_class class class_place (view_of tested.value) place }
    {
        Expr::IsOfBaseClass(class, class_place, tested, place)
    }

    /// `sameclass(left, right)`
    pub fn same_class(left: Box<Expr>, right: Box<Expr>, place: Place) -> Expr
        ensures { view_of result ≡ same_class (view_of left.value) (view_of right.value) place }
    {
        Expr::SameClass(left, right, place)
    }

    /// `samebaseclass(left, right)`
    pub fn same_base_class(left: Box<Expr>, right: Box<Expr>, place: Place) -> Expr
        ensures { view_of result ≡ same_base_class (view_of left.value) (view_of right.value) place }
    {
        Expr::SameBaseClass(left, right, place)
    }

    /// A new object of the class whose name stands at `class_place`; `new` is at `place`.
    pub fn create(class: Name, class_place: Place, arguments: Vec<Expr>, place: Place) -> Expr
        ensures { view_of result ≡ create class class_place (expr_trees (views_of arguments.items)) place }
    {
        Expr::New(class, class_place, arguments, place)
    }

    /// The sum of the counter over the operations.
    pub fn history(counter: Counter, names: Vec<NameAt>, place: Place) -> Expr
        ensures { view_of result ≡ history counter names.items place }
    {
        Expr::History(counter, names, place)
    }
}
