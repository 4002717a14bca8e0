// What was read of a type whose next part is being read.

use type_tree::TypeExpr;
use vdm_kinds::Place;

/// What an element is read for.
#[derive(Clone, Copy)]
pub enum Collection {
    /// `set of`
    Set,
    /// `seq of`
    Sequence,
    /// `seq1 of`
    FilledSequence,
}

/// What a key and a value are read for.
#[derive(Clone, Copy)]
pub enum Mapping {
    /// `map`
    Any,
    /// `inmap`
    Injective,
}

#[derive(Clone, Copy)]
pub enum Bracket {
    Round,
    Square,
}

/// What stands before the part that is being read.
#[derive(Drop)]
pub enum Frame {
    /// `set of` and its kin.
    Element(Collection, Place),
    /// `map` and its kin.
    KeyOf(Mapping, Place),
    /// `map K to` and its kin.
    ValueOf(Mapping, Box<TypeExpr>, Place),
    /// An opening bracket.
    Enclosed(Bracket, Place),
    /// The factors before a `*`.
    Factors(Vec<TypeExpr>),
    /// The alternatives before a `|`.
    Alternatives(Vec<TypeExpr>),
}

/// What the innermost frame is.
#[derive(Clone, Copy)]
pub enum Top {
    /// One that ends with a single type: of an element, or of a value of a map.
    Part,
    Factors,
    Alternatives,
    /// Any other, or none.
    Other,
}
