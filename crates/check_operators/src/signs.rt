// What each sign of an operator wants, and whose parts its value has.

ghost use Rattle.std.specs.Prelude.{◌≡◌};
ghost use Rattle.abstract_syntax.specs.Classes.{SpecTree};
ghost use Rattle.class_checks.specs.Operators.{left_want, right_want, source, is_source};
ghost use Rattle.class_checks.specs.Shapes.{operand_want, subsequence_want};
ghost use Rattle.check_operators.specs.Kinds.{form_of_kind};
ghost use Rattle.check_operators.specs.Sources.{source_of};

use crate::kind::Kind;
use vdm_kinds::Sign;

/// What an operator before its operand wants of it, and one between operands of the left one.
pub fn left_want(sign: Sign) -> Kind
    ensures { form_of_kind result ≡ left_want sign }
{
    match sign {
        Sign::Equivalent | Sign::Implies | Sign::Or | Sign::And | Sign::Not => Kind::Truth,
        Sign::Equal | Sign::NotEqual | Sign::InSet | Sign::NotInSet => Kind::Any,
        Sign::Less | Sign::LessEqual | Sign::Greater | Sign::GreaterEqual => Kind::Number,
        Sign::Plus | Sign::Minus | Sign::Times | Sign::Div | Sign::Rem | Sign::Mod => Kind::Number,
        Sign::Positive | Sign::Negative | Sign::Absolute | Sign::Exponent => Kind::Number,
        Sign::Subset | Sign::ProperSubset | Sign::Union | Sign::Difference | Sign::Inter =>
            Kind::Set,
        Sign::DomainRestriction
        | Sign::DomainRemoval
        | Sign::Card
        | Sign::PowerSet
        | Sign::DistributedUnion
        | Sign::DistributedInter
        | Sign::Merge => Kind::Set,
        Sign::Concatenation
        | Sign::Length
        | Sign::Head
        | Sign::Tail
        | Sign::Indices
        | Sign::Elements
        | Sign::DistributedConcatenation => Kind::Sequence,
        Sign::MapUnion
        | Sign::Inverse
        | Sign::RangeRestriction
        | Sign::RangeRemoval
        | Sign::Domain
        | Sign::Range
        | Sign::Composition => Kind::Map,
        Sign::Override => Kind::SequenceOrMap,
    }
}

fn right_want(sign: Sign) -> Kind
    ensures { form_of_kind result ≡ right_want sign }
{
    match sign {
        Sign::InSet | Sign::NotInSet | Sign::RangeRestriction | Sign::RangeRemoval => Kind::Set,
        Sign::Override | Sign::DomainRestriction | Sign::DomainRemoval => Kind::Map,
        _ => left_want(sign),
    }
}

/// What an operator wants of the operand behind so many others.
pub fn operand_want(sign: Sign, others: usize) -> Kind
    ensures { form_of_kind result ≡ operand_want sign others }
{
    if others == 0 {
        left_want(sign)
    } else {
        right_want(sign)
    }
}

/// What is wanted behind so many parts of `q(i, ..., j)`.
pub fn subsequence_want(others: usize) -> Kind
    ensures { form_of_kind result ≡ subsequence_want others }
{
    if others == 0 {
        Kind::Sequence
    } else {
        Kind::Number
    }
}

/// The operands whose parts a value has.
#[derive(Clone, Copy, Debug, PartialEq, Eq)]
pub enum Operands {
    Neither,
    Left,
    Right,
    Both,
}

/// Of which operands an operator's value has the parts.
pub fn source(sign: Sign) -> Operands
    ensures { source_of result ≡ source sign }
{
    match sign {
        Sign::Union | Sign::MapUnion | Sign::Override | Sign::Concatenation | Sign::Composition =>
            Operands::Both,
        Sign::DomainRestriction | Sign::DomainRemoval => Operands::Right,
        Sign::Difference
        | Sign::Inter
        | Sign::Inverse
        | Sign::RangeRestriction
        | Sign::RangeRemoval
        | Sign::PowerSet
        | Sign::Merge => Operands::Left,
        Sign::DistributedUnion
        | Sign::DistributedInter
        | Sign::Head
        | Sign::Tail
        | Sign::Elements
        | Sign::DistributedConcatenation
        | Sign::Domain
        | Sign::Range => Operands::Left,
        _ => Operands::Neither,
    }
}

/// Whether the operand behind so many others is one of these.
pub fn is_source(source: Operands, others: usize) -> bool
    ensures { result ≡ is_source (source_of source) others }
{
    match source {
        Operands::Neither => false,
        Operands::Left => others == 0,
        Operands::Right => others != 0,
        Operands::Both => true,
    }
}
