// What was read of a tree whose next part is being read.

use crate::purpose::{
    BindsFor, Body, Compared, Conditioned, Enclosed, Listed, PatternsFor, Ranged,
};
use expr_tree::{
    Bind, Branch, Case, Defined, Expr, FieldValue, Maplet, MapletPattern, Pattern, TypeExpr,
};
use vdm_kinds::{Name, Place, Sign};

/// What was read of a tree whose next part is being read. The last place is that of its node.
#[derive(Drop)]
pub enum Frame {
    /// The operand of a prefix.
    OperandOf(Sign, Place),
    /// The right operand.
    RightOf(Box<Expr>, Sign, Place),
    /// What goes to the right as far as it can.
    Body(Body, Place),
    /// An expression in round brackets.
    Enclosed(Enclosed, Place),
    /// `(e)` as a pattern.
    Matched(Place),
    /// A further expression of a list.
    Items(Listed, Vec<Expr>, Place),
    /// The first part of `mk_(a, b)`.
    TupleStart(Place),
    /// The last of a range.
    RangeEnd(Ranged, Box<Expr>, Place),
    /// A further key.
    MapKey(Vec<Maplet>, Place),
    /// The value of a key.
    MapValue(Vec<Maplet>, Box<Expr>, Place),
    /// The condition of a comprehension.
    Condition(Conditioned, Place),
    /// The set of a bind, behind other binds.
    BindSet(BindsFor, Vec<Bind>, Vec<Pattern>, Place),
    /// The set of the bind in `[e | p in set S]`.
    SequenceSet(Box<Expr>, Box<Pattern>, Place),
    /// The first of two objects.
    LeftClass(Compared, Place),
    /// The second of two objects.
    RightClass(Compared, Box<Expr>, Place),
    /// What `is_` tests.
    Tested(Place),
    /// What `mu` modifies.
    Modified(Place),
    /// The value of a field.
    FieldValue(Box<Expr>, Vec<FieldValue>, Name, Place, Place),
    /// The value of a definition.
    LetValue(Vec<Defined>, Box<Pattern>, Option<TypeExpr>, Place),
    /// What stands behind `be st`.
    LetSuch(Box<Bind>, Place),
    /// The value of a `def`.
    DefValue(Box<Pattern>, Place),
    /// The condition of an `if`.
    IfTest(Place),
    /// The value behind `then`.
    IfThen(Box<Expr>, Place),
    /// The condition of an `elseif`.
    ElseifTest(Box<Expr>, Box<Expr>, Vec<Branch>, Place),
    /// The value of an `elseif`.
    ElseifThen(Box<Expr>, Box<Expr>, Vec<Branch>, Box<Expr>, Place),
    /// What `cases` looks at.
    Subject(Place),
    /// The value of a case.
    CaseValue(Box<Expr>, Vec<Case>, Vec<Pattern>, Place),
    /// The value behind `others`.
    OthersValue(Box<Expr>, Vec<Case>, Place),
    /// A pattern of a bind, behind other binds.
    BindPatterns(BindsFor, Vec<Bind>, Vec<Pattern>, Place),
    /// The pattern in `[e | p in set S]`.
    SequenceBound(Box<Expr>, Place),
    /// The first pattern behind `let`.
    LetStart(Place),
    /// The pattern of a further definition.
    LetNext(Vec<Defined>, Place),
    /// The pattern of a `def`.
    DefPattern(Place),
    /// A pattern of a case.
    CasePatterns(Box<Expr>, Vec<Case>, Vec<Pattern>, Place),
    /// A further pattern of a list.
    PatternItems(PatternsFor, Vec<Pattern>, Place),
    /// The first part of `mk_(p, q)`.
    TuplePatternStart(Place),
    /// A further key.
    PatternKey(Vec<MapletPattern>, Place),
    /// The value of a key.
    PatternValue(Vec<MapletPattern>, Box<Pattern>, Place),
    /// What stands before a `^`.
    Concatenated(Vec<Pattern>, Place),
    /// The type that `is_` asks for.
    TestType(Box<Expr>, Place),
    /// The type of a definition.
    LetType(Vec<Defined>, Box<Pattern>, Place),
    /// A bracket in a type.
    TypeBracket,
}

impl Frame {
    /// The frame goes, with what was read of its tree. A crate that drops a frame by itself proves again how all
    /// kinds of frames are dropped.
    pub fn discard(self) {}
}
