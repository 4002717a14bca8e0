// In which way the form of what an operator gives follows from those of its operands.

ghost use Rattle.std.specs.Prelude.{◌≡◌};
ghost use Rattle.abstract_syntax.specs.Classes.{SpecTree};
ghost use Rattle.form_meaning.specs.Forms.{FormTree};
ghost use Rattle.class_checks.specs.Operators.{gives_of_one, gives_of_two};
ghost use Rattle.check_operators.specs.Ways.{of_one, of_two};

use type_forms::PartOf;
use vdm_kinds::Sign;

/// What an operator before its operand gives.
#[derive(Clone, Copy, Debug, PartialEq, Eq)]
pub enum WayOfOne {
    Truth,
    Number,
    /// A set of numbers.
    Numbers,
    /// Sets of parts of the operand.
    SetOf(PartOf),
    SequenceOf(PartOf),
    /// Maps by what keys and values are.
    MapOf(PartOf, PartOf),
    /// A part of the operand.
    Part(PartOf),
    SetOfSets,
    /// Sets of elements of elements.
    SetWithin,
    /// Sequences of items of items.
    SequenceWithin,
    /// Maps of the keys and values of elements.
    MapWithin,
}

/// What an operator between two operands gives.
#[derive(Clone, Copy, Debug, PartialEq, Eq)]
pub enum WayOfTwo {
    Truth,
    Number,
    Union,
    /// Sets of the elements of the left one.
    LeftSet,
    MapUnion,
    Override,
    Concatenation,
    /// Maps of the keys and values of the right one.
    RightMap,
    LeftMap,
    Composition,
}

/// The way of an operator before its operand.
pub fn way_of_one(sign: Sign) -> WayOfOne
    ensures { (spec : SpecTree) → (form : FormTree) → of_one spec result form ≡ gives_of_one spec sign form }
{
    match sign {
        Sign::Not => WayOfOne::Truth,
        Sign::PowerSet => WayOfOne::SetOfSets,
        Sign::DistributedUnion => WayOfOne::SetWithin,
        Sign::DistributedInter => WayOfOne::SetWithin,
        Sign::Head => WayOfOne::Part(PartOf::Item),
        Sign::Tail => WayOfOne::SequenceOf(PartOf::Item),
        Sign::Indices => WayOfOne::Numbers,
        Sign::Elements => WayOfOne::SetOf(PartOf::Item),
        Sign::DistributedConcatenation => WayOfOne::SequenceWithin,
        Sign::Domain => WayOfOne::SetOf(PartOf::Key),
        Sign::Range => WayOfOne::SetOf(PartOf::Value),
        Sign::Merge => WayOfOne::MapWithin,
        Sign::Inverse => WayOfOne::MapOf(PartOf::Value, PartOf::Key),
        _ => WayOfOne::Number,
    }
}

/// The way of an operator between two operands.
pub fn way_of_two(sign: Sign) -> WayOfTwo
    ensures { (spec : SpecTree) → (form other : FormTree) → of_two spec result form other ≡ gives_of_two spec sign form other }
{
    match sign {
        Sign::Plus
        | Sign::Minus
        | Sign::Times
        | Sign::Div
        | Sign::Rem
        | Sign::Mod
        | Sign::Exponent => WayOfTwo::Number,
        Sign::Union => WayOfTwo::Union,
        Sign::Inter | Sign::Difference => WayOfTwo::LeftSet,
        Sign::MapUnion => WayOfTwo::MapUnion,
        Sign::Override => WayOfTwo::Override,
        Sign::Concatenation => WayOfTwo::Concatenation,
        Sign::DomainRestriction | Sign::DomainRemoval => WayOfTwo::RightMap,
        Sign::RangeRestriction | Sign::RangeRemoval => WayOfTwo::LeftMap,
        Sign::Composition => WayOfTwo::Composition,
        _ => WayOfTwo::Truth,
    }
}
