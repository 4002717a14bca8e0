// What parts of trees are read for.

use expr_tree::{Bind, Branch, Defined, Expr, Pattern};
use vdm_kinds::{BasicType, Name, Place, TypeName};

/// What an expression in round brackets is for.
#[derive(Clone, Copy)]
pub enum Enclosed {
    /// `(e)`
    Bracket,
    /// `mk_token(e)`
    TokenOf,
    /// `is_T(e)`
    NamedTest(TypeName),
    /// `is_nat(e)` and its kin.
    BasicTest(BasicType),
    /// `isofclass(C, e)`
    ClassTest(Name, Place),
    /// `isofbaseclass(C, e)`
    BaseClassTest(Name, Place),
}

/// What a list of expressions is for.
#[derive(Drop)]
pub enum Listed {
    /// `{a, b}`
    SetOf,
    /// `[a, b]`
    SequenceOf,
    /// `mk_(a, b)`
    TupleOf,
    /// `mk_T(a, b)`
    RecordOf(TypeName),
    /// `new C(a, b)`
    NewOf(Name, Place),
    /// `f(a, b)`
    AppliedTo(Box<Expr>),
}

/// What a range is for.
#[derive(Drop)]
pub enum Ranged {
    /// `{a, ..., b}`
    InSet,
    /// `q(a, ..., b)`
    PartOfSequence(Box<Expr>),
}

/// What two classes are compared for.
#[derive(Clone, Copy)]
pub enum Compared {
    Classes,
    BaseClasses,
}

/// What binds are for.
#[derive(Drop)]
pub enum BindsFor {
    /// `{e | binds}`
    SetEach(Box<Expr>),
    /// `{a |-> b | binds}`
    MapEach(Box<Expr>, Box<Expr>),
    /// `forall`
    AllOf,
    /// `exists`
    SomeOf,
    /// `exists1`
    OneOf,
    /// `iota`
    TheOne,
    /// `let` with a bind.
    SuchOne,
}

/// What a condition at the end of a comprehension is for.
#[derive(Drop)]
pub enum Conditioned {
    SetSuch(Box<Expr>, Vec<Bind>),
    MapSuch(Box<Expr>, Box<Expr>, Vec<Bind>),
    SequenceSuch(Box<Expr>, Box<Pattern>, Box<Expr>),
}

/// What an expression is for that goes to the right as far as it can.
#[derive(Drop)]
pub enum Body {
    /// `forall`
    All(Vec<Bind>),
    /// `exists`
    Some(Vec<Bind>),
    /// `exists1`
    One(Box<Bind>),
    /// `iota`
    The(Box<Bind>),
    /// `let` with definitions.
    Let(Vec<Defined>),
    /// `let` with a bind.
    Such(Box<Bind>, Option<Box<Expr>>),
    /// `def`
    Def(Box<Pattern>, Box<Expr>),
    /// `if`, behind its `else`.
    Else(Box<Expr>, Box<Expr>, Vec<Branch>),
}

/// What a list of patterns is for.
#[derive(Clone, Copy)]
pub enum PatternsFor {
    /// `{p, q}`
    SetLike,
    /// `[p, q]`
    SequenceLike,
    /// `mk_(p, q)`
    TupleLike,
    /// `mk_T(p, q)`
    RecordLike(TypeName),
}
