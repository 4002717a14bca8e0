// The operators, each with the kinds of operands that it is for.

use vdm_kinds::Operator;

/// A kind of operand.
#[derive(Clone, Copy)]
pub(crate) enum Kind {
    Any,
    Number,
    Truth,
    Set,
    Sequence,
    Map,
    SetOfSets,
    SetOfMaps,
    SequenceOfSequences,
}

/// Those of one operand.
pub(crate) const UNARY: [(Operator, Kind); 18] = [
    (Operator::Positive, Kind::Number),
    (Operator::Negative, Kind::Number),
    (Operator::Absolute, Kind::Number),
    (Operator::Not, Kind::Truth),
    (Operator::Card, Kind::Set),
    (Operator::PowerSet, Kind::Set),
    (Operator::DistributedUnion, Kind::SetOfSets),
    (Operator::DistributedInter, Kind::SetOfSets),
    (Operator::Length, Kind::Sequence),
    (Operator::Indices, Kind::Sequence),
    (Operator::Elements, Kind::Sequence),
    (
        Operator::DistributedConcatenation,
        Kind::SequenceOfSequences,
    ),
    (Operator::Head, Kind::Sequence),
    (Operator::Tail, Kind::Sequence),
    (Operator::Domain, Kind::Map),
    (Operator::Range, Kind::Map),
    (Operator::Merge, Kind::SetOfMaps),
    (Operator::Inverse, Kind::Map),
];

/// Those of two operands.
pub(crate) const BINARY: [(Operator, Kind, Kind); 33] = [
    (Operator::Plus, Kind::Number, Kind::Number),
    (Operator::Minus, Kind::Number, Kind::Number),
    (Operator::Times, Kind::Number, Kind::Number),
    (Operator::Div, Kind::Number, Kind::Number),
    (Operator::Rem, Kind::Number, Kind::Number),
    (Operator::Mod, Kind::Number, Kind::Number),
    (Operator::Exponent, Kind::Number, Kind::Number),
    (Operator::Less, Kind::Number, Kind::Number),
    (Operator::LessEqual, Kind::Number, Kind::Number),
    (Operator::Greater, Kind::Number, Kind::Number),
    (Operator::GreaterEqual, Kind::Number, Kind::Number),
    (Operator::Equal, Kind::Any, Kind::Any),
    (Operator::NotEqual, Kind::Any, Kind::Any),
    (Operator::Equivalent, Kind::Truth, Kind::Truth),
    (Operator::Union, Kind::Set, Kind::Set),
    (Operator::Inter, Kind::Set, Kind::Set),
    (Operator::Difference, Kind::Set, Kind::Set),
    (Operator::Subset, Kind::Set, Kind::Set),
    (Operator::ProperSubset, Kind::Set, Kind::Set),
    (Operator::InSet, Kind::Any, Kind::Set),
    (Operator::NotInSet, Kind::Any, Kind::Set),
    (Operator::Interval, Kind::Number, Kind::Number),
    (Operator::Concatenation, Kind::Sequence, Kind::Sequence),
    (Operator::LookUp, Kind::Sequence, Kind::Number),
    (Operator::LookUp, Kind::Map, Kind::Any),
    (Operator::Override, Kind::Sequence, Kind::Map),
    (Operator::Override, Kind::Map, Kind::Map),
    (Operator::DomainRestriction, Kind::Set, Kind::Map),
    (Operator::DomainRemoval, Kind::Set, Kind::Map),
    (Operator::RangeRestriction, Kind::Map, Kind::Set),
    (Operator::RangeRemoval, Kind::Map, Kind::Set),
    (Operator::MapUnion, Kind::Map, Kind::Map),
    (Operator::Composition, Kind::Map, Kind::Map),
];
