// Patterns and binds.

ghost use Rattle.std.specs.Prelude.{◌≡◌, map};
ghost use Rattle.abstract_syntax.specs.Expressions.{bound, literal_pattern, equal_to, set_pattern, sequence_pattern, map_pattern, tuple_pattern, record_pattern, concatenation_pattern, bind_in};
ghost use Rattle.type_tree.specs.LiteralView.{literal_view};
ghost use Rattle.expr_tree.specs.View.{view_of, pattern_view, pattern_views, pattern_trees, maplet_pattern_view, maplet_pattern_trees, bind_view};

use crate::expr::Expr;
use type_tree::Literal;
use vdm_kinds::{Name, Place, TypeName};

/// A pattern, at the place of its first token.
#[cycle(tree)]
pub enum Pattern {
    /// `-`, which takes any value.
    AnyValue(Place),
    /// A name, which is bound.
    Bound(Name, Place),
    Literal(Literal, Place),
    /// `(e)`, which takes the expression's value.
    EqualTo(Box<Expr>, Place),
    /// `{p, q}`
    Set(Vec<Pattern>, Place),
    /// `[p, q]`
    Sequence(Vec<Pattern>, Place),
    /// `{p |-> q}`
    Map(Vec<MapletPattern>, Place),
    /// `{|->}`
    EmptyMap(Place),
    /// `mk_(p, q)`
    Tuple(Vec<Pattern>, Place),
    /// `mk_T(p, q)` or ``mk_C`T(p, q)``.
    Record(TypeName, Vec<Pattern>, Place),
    /// `p ^ q ^ ..`
    Concatenation(Vec<Pattern>, Place),
}

// A derived drop would be proved again, at a minute and more, in each crate that drops a tree.
impl Drop for Pattern {
    #[cycle(tree)]
    fn drop(self) {
        match self {
            Pattern::AnyValue(_a) => {}
            Pattern::Bound(_a, _b) => {}
            Pattern::Literal(_a, _b) => {}
            Pattern::EqualTo(_a, _b) => {}
            Pattern::Set(_a, _b) => {}
            Pattern::Sequence(_a, _b) => {}
            Pattern::Map(_a, _b) => {}
            Pattern::EmptyMap(_a) => {}
            Pattern::Tuple(_a, _b) => {}
            Pattern::Record(_a, _b, _c) => {}
            Pattern::Concatenation(_a, _b) => {}
        }
    }
}

/// `p |-> q` in a pattern.
#[cycle(tree)]
#[derive(Drop)]
pub struct MapletPattern {
    pub key: Box<Pattern>,
    pub value: Box<Pattern>,
}

/// `p, q in set S`
#[cycle(tree)]
#[derive(Drop)]
pub struct Bind {
    pub patterns: Vec<Pattern>,
    pub set: Box<Expr>,
}

impl Pattern {
    /// A name, which is bound.
    pub fn bound(name: Name, place: Place) -> Pattern
        ensures { pattern_view result ≡ bound name place }
    {
        Pattern::Bound(name, place)
    }

    /// The literal at its place.
    pub fn literal(value: Literal, place: Place) -> Pattern
        ensures { pattern_view result ≡ literal_pattern (literal_view value) place }
    {
        Pattern::Literal(value, place)
    }

    /// `(inner)`, whose `(` is at the place.
    pub fn equal_to(inner: Box<Expr>, place: Place) -> Pattern
        ensures { pattern_view result ≡ equal_to (view_of inner.value) place }
    {
        Pattern::EqualTo(inner, place)
    }

    /// `{elements}`
    pub fn set(elements: Vec<Pattern>, place: Place) -> Pattern
        ensures { pattern_view result ≡ set_pattern (pattern_trees (pattern_views elements.items)) place }
    {
        Pattern::Set(elements, place)
    }

    /// `[items]`
    pub fn sequence(items: Vec<Pattern>, place: Place) -> Pattern
        ensures { pattern_view result ≡ sequence_pattern (pattern_trees (pattern_views items.items)) place }
    {
        Pattern::Sequence(items, place)
    }

    /// `{p |-> q}`
    pub fn map(pairs: Vec<MapletPattern>, place: Place) -> Pattern
        ensures { pattern_view result ≡ map_pattern (maplet_pattern_trees (map maplet_pattern_view pairs.items)) place }
    {
        Pattern::Map(pairs, place)
    }

    /// `mk_(parts)`
    pub fn tuple(parts: Vec<Pattern>, place: Place) -> Pattern
        ensures { pattern_view result ≡ tuple_pattern (pattern_trees (pattern_views parts.items)) place }
    {
        Pattern::Tuple(parts, place)
    }

    /// A record of the type of this name.
    pub fn record(type_name: TypeName, fields: Vec<Pattern>, place: Place) -> Pattern
        ensures { pattern_view result ≡ record_pattern type_name (pattern_trees (pattern_views fields.items)) place }
    {
        Pattern::Record(type_name, fields, place)
    }

    /// `p ^ q ^ ..`, of two parts or more.
    pub fn concatenation(parts: Vec<Pattern>, place: Place) -> Pattern
        ensures { pattern_view result ≡ concatenation_pattern (pattern_trees (pattern_views parts.items)) place }
    {
        Pattern::Concatenation(parts, place)
    }
}

impl MapletPattern {
    /// `key |-> value`
    pub fn new(key: Box<Pattern>, value: Box<Pattern>) -> MapletPattern
        ensures { maplet_pattern_view result ≡ record { key = (pattern_view key.value); value = (pattern_view value.value) } }
    {
        MapletPattern { key, value }
    }
}

impl Bind {
    /// `patterns in set set`
    pub fn new(patterns: Vec<Pattern>, set: Box<Expr>) -> Bind
        ensures { bind_view result ≡ bind_in (pattern_trees (pattern_views patterns.items)) (view_of set.value) }
    {
        Bind { patterns, set }
    }
}
