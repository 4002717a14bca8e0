// Expressions.

ghost use Rattle.std.specs.Prelude.{◌≡◌};
ghost use Rattle.abstract_syntax.specs.Literals.{whole_literal};
ghost use Rattle.abstract_syntax.specs.Expressions.{literal, named, qualified, old_value};
ghost use Rattle.type_tree.specs.LiteralView.{literal_view};
ghost use Rattle.expr_tree.specs.View.{view_of};

use crate::parts::{Branch, Case, Defined, FieldValue, Maplet};
use crate::pattern::{Bind, Pattern};
use type_tree::{Literal, TypeExpr};
use vdm_kinds::{BasicType, Counter, Name, NameAt, Place, Sign, TypeName};

/// An expression. Its place is where a fault of the node stands: of an infix operator the operator's, of an application its
/// `(`, of a selection its `.`, of all else its first token's.
#[cycle(tree)]
pub enum Expr {
    Literal(Literal, Place),
    /// A name that stands alone.
    Name(Name, Place),
    /// ``C`x``: the class, the name, and where that stands.
    Qualified(Name, Name, Place, Place),
    /// `x~`
    Old(Name, Place),
    /// `self`
    SelfObject(Place),
    /// `time`
    Time(Place),
    /// `undefined`
    Undefined(Place),
    /// `RESULT`
    Result(Place),
    /// `(e)`
    Bracketed(Box<Expr>, Place),
    /// An operator before its operand.
    Prefix(Sign, Box<Expr>, Place),
    /// An operator between its operands.
    Infix(Box<Expr>, Sign, Box<Expr>, Place),
    /// `{a, b}`
    SetEnumeration(Vec<Expr>, Place),
    /// `{a, ..., b}`
    SetRange(Box<Expr>, Box<Expr>, Place),
    /// `{e | x in set S & p}`
    SetComprehension(Box<Expr>, Vec<Bind>, Option<Box<Expr>>, Place),
    /// `{|->}`
    EmptyMap(Place),
    /// `{a |-> b, c |-> d}`
    MapEnumeration(Vec<Maplet>, Place),
    /// `{a |-> b | x in set S & p}`
    MapComprehension(Box<Expr>, Box<Expr>, Vec<Bind>, Option<Box<Expr>>, Place),
    /// `[a, b]`
    SequenceEnumeration(Vec<Expr>, Place),
    /// `[e | x in set S & p]`
    SequenceComprehension(Box<Expr>, Box<Pattern>, Box<Expr>, Option<Box<Expr>>, Place),
    /// `mk_(a, b)`
    MakeTuple(Vec<Expr>, Place),
    /// `mk_token(e)`
    MakeToken(Box<Expr>, Place),
    /// `mk_T(a, b)` or ``mk_C`T(a, b)``.
    MakeRecord(TypeName, Vec<Expr>, Place),
    /// `mu(r, f |-> a)`
    ModifyRecord(Box<Expr>, Vec<FieldValue>, Place),
    /// `is_(e, T)`
    IsOfType(Box<Expr>, TypeExpr, Place),
    /// `is_T(e)` or ``is_C`T(e)``.
    IsOfNamed(TypeName, Box<Expr>, Place),
    /// `is_nat(e)` and its kin.
    IsOfBasic(BasicType, Box<Expr>, Place),
    /// `isofclass(C, e)`: the class, and where its name stands.
    IsOfClass(Name, Place, Box<Expr>, Place),
    /// `isofbaseclass(C, e)`
    IsOfBaseClass(Name, Place, Box<Expr>, Place),
    /// `sameclass(a, b)`
    SameClass(Box<Expr>, Box<Expr>, Place),
    /// `samebaseclass(a, b)`
    SameBaseClass(Box<Expr>, Box<Expr>, Place),
    /// A new object: the name of its class, where that stands, and the arguments.
    New(Name, Place, Vec<Expr>, Place),
    /// `#fin(op, op)`: the operations.
    History(Counter, Vec<NameAt>, Place),
    /// An application of what stands first to the arguments.
    Apply(Box<Expr>, Vec<Expr>, Place),
    /// `q(i, ..., j)`
    Subsequence(Box<Expr>, Box<Expr>, Box<Expr>, Place),
    /// A member of what stands first: its name, and where that stands.
    Select(Box<Expr>, Name, Place, Place),
    /// ``e.C`x``: the class and the name, and where each stands.
    SelectOfClass(Box<Expr>, Name, Place, Name, Place, Place),
    /// `e.#1`
    SelectPart(Box<Expr>, i128, Place),
    /// `let p : T = a, q = b in e`
    LetIn(Vec<Defined>, Box<Expr>, Place),
    /// `let x in set S be st p in e`
    LetBe(Box<Bind>, Option<Box<Expr>>, Box<Expr>, Place),
    /// `def p = a in e`
    DefIn(Box<Pattern>, Box<Expr>, Box<Expr>, Place),
    /// `if c then a elseif d then b else e`: the condition, the value, those of each `elseif`, and the value behind `else`.
    IfElse(Box<Expr>, Box<Expr>, Vec<Branch>, Box<Expr>, Place),
    /// `cases e: p, q -> a, others -> b end`
    Cases(Box<Expr>, Vec<Case>, Option<Box<Expr>>, Place),
    /// `forall x in set S & p`
    ForAll(Vec<Bind>, Box<Expr>, Place),
    /// `exists x in set S & p`
    Exists(Vec<Bind>, Box<Expr>, Place),
    /// `exists1 x in set S & p`
    ExistsOne(Box<Bind>, Box<Expr>, Place),
    /// `iota x in set S & p`
    Iota(Box<Bind>, Box<Expr>, Place),
}

// A derived drop would be proved again, at a minute and more, in each crate that drops a tree.
impl Drop for Expr {
    #[cycle(tree)]
    fn drop(self) {
        match self {
            Expr::Literal(_a, _b) => {}
            Expr::Name(_a, _b) => {}
            Expr::Qualified(_a, _b, _c, _d) => {}
            Expr::Old(_a, _b) => {}
            Expr::SelfObject(_a) => {}
            Expr::Time(_a) => {}
            Expr::Undefined(_a) => {}
            Expr::Result(_a) => {}
            Expr::Bracketed(_a, _b) => {}
            Expr::Prefix(_a, _b, _c) => {}
            Expr::Infix(_a, _b, _c, _d) => {}
            Expr::SetEnumeration(_a, _b) => {}
            Expr::SetRange(_a, _b, _c) => {}
            Expr::SetComprehension(_a, _b, _c, _d) => {}
            Expr::EmptyMap(_a) => {}
            Expr::MapEnumeration(_a, _b) => {}
            Expr::MapComprehension(_a, _b, _c, _d, _e) => {}
            Expr::SequenceEnumeration(_a, _b) => {}
            Expr::SequenceComprehension(_a, _b, _c, _d, _e) => {}
            Expr::MakeTuple(_a, _b) => {}
            Expr::MakeToken(_a, _b) => {}
            Expr::MakeRecord(_a, _b, _c) => {}
            Expr::ModifyRecord(_a, _b, _c) => {}
            Expr::IsOfType(_a, _b, _c) => {}
            Expr::IsOfNamed(_a, _b, _c) => {}
            Expr::IsOfBasic(_a, _b, _c) => {}
            Expr::IsOfClass(_a, _b, _c, _d) => {}
            Expr::IsOfBaseClass(_a, _b, _c, _d) => {}
            Expr::SameClass(_a, _b, _c) => {}
            Expr::SameBaseClass(_a, _b, _c) => {}
            Expr::New(_a, _b, _c, _d) => {}
            Expr::History(_a, _b, _c) => {}
            Expr::Apply(_a, _b, _c) => {}
            Expr::Subsequence(_a, _b, _c, _d) => {}
            Expr::Select(_a, _b, _c, _d) => {}
            Expr::SelectOfClass(_a, _b, _c, _d, _e, _f) => {}
            Expr::SelectPart(_a, _b, _c) => {}
            Expr::LetIn(_a, _b, _c) => {}
            Expr::LetBe(_a, _b, _c, _d) => {}
            Expr::DefIn(_a, _b, _c, _d) => {}
            Expr::IfElse(_a, _b, _c, _d, _e) => {}
            Expr::Cases(_a, _b, _c, _d) => {}
            Expr::ForAll(_a, _b, _c) => {}
            Expr::Exists(_a, _b, _c) => {}
            Expr::ExistsOne(_a, _b, _c) => {}
            Expr::Iota(_a, _b, _c) => {}
        }
    }
}

impl Expr {
    /// The literal at its place.
    pub fn literal(value: Literal, place: Place) -> Expr
        ensures { view_of result ≡ literal (literal_view value) place }
    {
        Expr::Literal(value, place)
    }

    /// A whole literal at its place.
    pub fn whole(value: i128, place: Place) -> Expr
        ensures { view_of result ≡ literal (whole_literal value) place }
    {
        Expr::Literal(Literal::Whole(value), place)
    }

    /// A name at its place.
    pub fn name(name: Name, place: Place) -> Expr
        ensures { view_of result ≡ named name place }
    {
        Expr::Name(name, place)
    }

    /// The name of the class, which begins at `place`; its own name stands at `name_place`.
    pub fn qualified(class: Name, name: Name, name_place: Place, place: Place) -> Expr
        ensures { view_of result ≡ qualified class name name_place place }
    {
        Expr::Qualified(class, name, name_place, place)
    }

    /// `name~`
    pub fn old(name: Name, place: Place) -> Expr
        ensures { view_of result ≡ old_value name place }
    {
        Expr::Old(name, place)
    }
}
