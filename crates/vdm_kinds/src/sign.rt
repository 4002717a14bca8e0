// Signs and words of operators.

ghost use Rattle.std.specs.Prelude.{◌≡◌};
ghost use Rattle.vdm_kinds.specs.Signs.{sign_text, sign_level, sign_grouping, sign_operator};

use crate::grouping::Grouping;
use crate::operator::Operator;

/// A sign or word that stands between operands or before one, from loosest to tightest.
#[derive(Clone, Copy, Debug, PartialEq, Eq)]
pub enum Sign {
    /// `<=>`
    Equivalent,
    /// `=>`
    Implies,
    /// `or`
    Or,
    /// `and`
    And,
    /// `not`
    Not,
    /// `=`
    Equal,
    /// `<>`
    NotEqual,
    /// `<`
    Less,
    /// `<=`
    LessEqual,
    /// `>`
    Greater,
    /// `>=`
    GreaterEqual,
    /// `subset`
    Subset,
    /// `psubset`
    ProperSubset,
    /// `in set`
    InSet,
    /// `not in set`
    NotInSet,
    /// `+` between operands
    Plus,
    /// `-` between operands
    Minus,
    /// `union`
    Union,
    /// `\`
    Difference,
    /// `munion`
    MapUnion,
    /// `++`
    Override,
    /// `^`
    Concatenation,
    /// `*`
    Times,
    /// `div`
    Div,
    /// `rem`
    Rem,
    /// `mod`
    Mod,
    /// `inter`
    Inter,
    /// `inverse`
    Inverse,
    /// `<:`
    DomainRestriction,
    /// `<-:`
    DomainRemoval,
    /// `:>`
    RangeRestriction,
    /// `:->`
    RangeRemoval,
    /// `+` before its operand
    Positive,
    /// `-` before its operand
    Negative,
    /// `abs`
    Absolute,
    /// `card`
    Card,
    /// `power`
    PowerSet,
    /// `dunion`
    DistributedUnion,
    /// `dinter`
    DistributedInter,
    /// `len`
    Length,
    /// `hd`
    Head,
    /// `tl`
    Tail,
    /// `inds`
    Indices,
    /// `elems`
    Elements,
    /// `conc`
    DistributedConcatenation,
    /// `dom`
    Domain,
    /// `rng`
    Range,
    /// `merge`
    Merge,
    /// `comp`
    Composition,
    /// `**`
    Exponent,
}

impl Sign {
    /// What it is written as. Of two words and three, one blank stands between each two.
    pub fn text(&self) -> &'static str
        ensures { result.now ≡ sign_text self.now }
    {
        match self {
            Sign::Equivalent => "<=>",
            Sign::Implies => "=>",
            Sign::Or => "or",
            Sign::And => "and",
            Sign::Not => "not",
            Sign::Equal => "=",
            Sign::NotEqual => "<>",
            Sign::Less => "<",
            Sign::LessEqual => "<=",
            Sign::Greater => ">",
            Sign::GreaterEqual => ">=",
            Sign::Subset => "subset",
            Sign::ProperSubset => "psubset",
            Sign::InSet => "in set",
            Sign::NotInSet => "not in set",
            Sign::Plus => "+",
            Sign::Minus => "-",
            Sign::Union => "union",
            Sign::Difference => "\\",
            Sign::MapUnion => "munion",
            Sign::Override => "++",
            Sign::Concatenation => "^",
            Sign::Times => "*",
            Sign::Div => "div",
            Sign::Rem => "rem",
            Sign::Mod => "mod",
            Sign::Inter => "inter",
            Sign::Inverse => "inverse",
            Sign::DomainRestriction => "<:",
            Sign::DomainRemoval => "<-:",
            Sign::RangeRestriction => ":>",
            Sign::RangeRemoval => ":->",
            Sign::Positive => "+",
            Sign::Negative => "-",
            Sign::Absolute => "abs",
            Sign::Card => "card",
            Sign::PowerSet => "power",
            Sign::DistributedUnion => "dunion",
            Sign::DistributedInter => "dinter",
            Sign::Length => "len",
            Sign::Head => "hd",
            Sign::Tail => "tl",
            Sign::Indices => "inds",
            Sign::Elements => "elems",
            Sign::DistributedConcatenation => "conc",
            Sign::Domain => "dom",
            Sign::Range => "rng",
            Sign::Merge => "merge",
            Sign::Composition => "comp",
            Sign::Exponent => "**",
        }
    }

    /// How tight it binds, from 1, the loosest.
    pub fn level(&self) -> u32
        ensures { result ≡ sign_level self.now }
    {
        match self {
            Sign::Equivalent => 1,
            Sign::Implies => 2,
            Sign::Or => 3,
            Sign::And => 4,
            Sign::Not => 5,
            Sign::Equal
            | Sign::NotEqual
            | Sign::Less
            | Sign::LessEqual
            | Sign::Greater
            | Sign::GreaterEqual
            | Sign::Subset
            | Sign::ProperSubset
            | Sign::InSet
            | Sign::NotInSet => 6,
            Sign::Plus
            | Sign::Minus
            | Sign::Union
            | Sign::Difference
            | Sign::MapUnion
            | Sign::Override
            | Sign::Concatenation => 7,
            Sign::Times | Sign::Div | Sign::Rem | Sign::Mod | Sign::Inter => 8,
            Sign::Inverse => 9,
            Sign::DomainRestriction | Sign::DomainRemoval => 10,
            Sign::RangeRestriction | Sign::RangeRemoval => 11,
            Sign::Positive
            | Sign::Negative
            | Sign::Absolute
            | Sign::Card
            | Sign::PowerSet
            | Sign::DistributedUnion
            | Sign::DistributedInter
            | Sign::Length
            | Sign::Head
            | Sign::Tail
            | Sign::Indices
            | Sign::Elements
            | Sign::DistributedConcatenation
            | Sign::Domain
            | Sign::Range
            | Sign::Merge => 12,
            Sign::Composition => 13,
            Sign::Exponent => 14,
        }
    }

    /// How it groups beside others of its level.
    pub fn grouping(&self) -> Grouping
        ensures { result ≡ sign_grouping self.now }
    {
        match self {
            Sign::Not
            | Sign::Inverse
            | Sign::Positive
            | Sign::Negative
            | Sign::Absolute
            | Sign::Card
            | Sign::PowerSet
            | Sign::DistributedUnion
            | Sign::DistributedInter
            | Sign::Length
            | Sign::Head
            | Sign::Tail
            | Sign::Indices
            | Sign::Elements
            | Sign::DistributedConcatenation
            | Sign::Domain
            | Sign::Range
            | Sign::Merge => Grouping::Prefix,
            Sign::Implies | Sign::DomainRestriction | Sign::DomainRemoval | Sign::Exponent =>
                Grouping::Right,
            _ => Grouping::Left,
        }
    }

    /// The strict operator that it is: none for `=>`, `or` and `and`.
    pub fn operator(&self) -> Option<Operator>
        ensures { result ≡ sign_operator self.now }
    {
        let operator = match self {
            Sign::Implies | Sign::Or | Sign::And => return None,
            Sign::Equivalent => Operator::Equivalent,
            Sign::Not => Operator::Not,
            Sign::Equal => Operator::Equal,
            Sign::NotEqual => Operator::NotEqual,
            Sign::Less => Operator::Less,
            Sign::LessEqual => Operator::LessEqual,
            Sign::Greater => Operator::Greater,
            Sign::GreaterEqual => Operator::GreaterEqual,
            Sign::Subset => Operator::Subset,
            Sign::ProperSubset => Operator::ProperSubset,
            Sign::InSet => Operator::InSet,
            Sign::NotInSet => Operator::NotInSet,
            Sign::Plus => Operator::Plus,
            Sign::Minus => Operator::Minus,
            Sign::Union => Operator::Union,
            Sign::Difference => Operator::Difference,
            Sign::MapUnion => Operator::MapUnion,
            Sign::Override => Operator::Override,
            Sign::Concatenation => Operator::Concatenation,
            Sign::Times => Operator::Times,
            Sign::Div => Operator::Div,
            Sign::Rem => Operator::Rem,
            Sign::Mod => Operator::Mod,
            Sign::Inter => Operator::Inter,
            Sign::Inverse => Operator::Inverse,
            Sign::DomainRestriction => Operator::DomainRestriction,
            Sign::DomainRemoval => Operator::DomainRemoval,
            Sign::RangeRestriction => Operator::RangeRestriction,
            Sign::RangeRemoval => Operator::RangeRemoval,
            Sign::Positive => Operator::Positive,
            Sign::Negative => Operator::Negative,
            Sign::Absolute => Operator::Absolute,
            Sign::Card => Operator::Card,
            Sign::PowerSet => Operator::PowerSet,
            Sign::DistributedUnion => Operator::DistributedUnion,
            Sign::DistributedInter => Operator::DistributedInter,
            Sign::Length => Operator::Length,
            Sign::Head => Operator::Head,
            Sign::Tail => Operator::Tail,
            Sign::Indices => Operator::Indices,
            Sign::Elements => Operator::Elements,
            Sign::DistributedConcatenation => Operator::DistributedConcatenation,
            Sign::Domain => Operator::Domain,
            Sign::Range => Operator::Range,
            Sign::Merge => Operator::Merge,
            Sign::Composition => Operator::Composition,
            Sign::Exponent => Operator::Exponent,
        };
        Some(operator)
    }
}
