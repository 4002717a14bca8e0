// Sets, maps and sequences.

ghost use Rattle.std.specs.Prelude.{◌≡◌, map};
ghost use Rattle.abstract_syntax.specs.Expressions.{set_enumeration, set_range, set_comprehension, map_enumeration, map_comprehension, sequence_enumeration, sequence_comprehension};
ghost use Rattle.expr_tree.specs.View.{view_of, views_of, expr_trees, maybe_view, bind_trees, bind_view, pattern_view, maplet_trees, maplet_view};

use crate::expr::Expr;
use crate::parts::Maplet;
use crate::pattern::{Bind, Pattern};
use vdm_kinds::Place;

impl Expr {
    /// `{elements}`
    pub fn set_enumeration(elements: Vec<Expr>, place: Place) -> Expr
        ensures { view_of result ≡ set_enumeration (expr_trees (views_of elements.items)) place }
    {
        Expr::SetEnumeration(elements, place)
    }

    /// `{first, ..., last}`
    pub fn set_range(first: Box<Expr>, last: Box<Expr>, place: Place) -> Expr
        ensures { view_of result ≡ set_range (view_of first.value) (view_of last.value) place }
    {
        Expr::SetRange(first, last, place)
    }

    /// `{element | binds & condition}`
    pub fn set_comprehension(
        element: Box<Expr>,
        binds: Vec<Bind>,
        condition: Option<Box<Expr>>,
        place: Place,
    ) -> Expr
        ensures { view_of result ≡ set_comprehension (view_of element.value) (bind_trees (map bind_view binds.items)) (maybe_view condition) place }
    {
        Expr::SetComprehension(element, binds, condition, place)
    }

    /// `{a |-> b, c |-> d}`
    pub fn map_enumeration(pairs: Vec<Maplet>, place: Place) -> Expr
        ensures { view_of result ≡ map_enumeration (maplet_trees (map maplet_view pairs.items)) place }
    {
        Expr::MapEnumeration(pairs, place)
    }

    /// `{key |-> value | binds & condition}`
    pub fn map_comprehension(
        key: Box<Expr>,
        value: Box<Expr>,
        binds: Vec<Bind>,
        condition: Option<Box<Expr>>,
        place: Place,
    ) -> Expr
        ensures { view_of result ≡ map_comprehension (view_of key.value) (view_of value.value) (bind_trees (map bind_view binds.items)) (maybe_view condition) place }
    {
        Expr::MapComprehension(key, value, binds, condition, place)
    }

    /// `[items]`
    pub fn sequence_enumeration(items: Vec<Expr>, place: Place) -> Expr
        ensures { view_of result ≡ sequence_enumeration (expr_trees (views_of items.items)) place }
    {
        Expr::SequenceEnumeration(items, place)
    }

    /// `[item | pattern in set set & condition]`
    pub fn sequence_comprehension(
        item: Box<Expr>,
        pattern: Box<Pattern>,
        set: Box<Expr>,
        condition: Option<Box<Expr>>,
        place: Place,
    ) -> Expr
        ensures { view_of result ≡ sequence_comprehension (view_of item.value) (pattern_view pattern.value) (view_of set.value) (maybe_view condition) place }
    {
        Expr::SequenceComprehension(item, pattern, set, condition, place)
    }
}
