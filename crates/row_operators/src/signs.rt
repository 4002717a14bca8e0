// The signs of operators in requests: as they are written, with `-` for a blank; `...` is an interval, `at` a look-up.

use row_words::Line;
use vdm_kinds::Operator;

/// The operator before one operand whose sign stands next.
pub(crate) fn prefix(line: &mut Line<'_>) -> Operator {
    match line.word() {
        "+" => Operator::Positive,
        "-" => Operator::Negative,
        "abs" => Operator::Absolute,
        "not" => Operator::Not,
        "card" => Operator::Card,
        "power" => Operator::PowerSet,
        "dunion" => Operator::DistributedUnion,
        "dinter" => Operator::DistributedInter,
        "len" => Operator::Length,
        "inds" => Operator::Indices,
        "elems" => Operator::Elements,
        "conc" => Operator::DistributedConcatenation,
        "hd" => Operator::Head,
        "tl" => Operator::Tail,
        "dom" => Operator::Domain,
        "rng" => Operator::Range,
        "merge" => Operator::Merge,
        "inverse" => Operator::Inverse,
        _ => refused(line),
    }
}

/// The operator between two operands whose sign stands next.
pub(crate) fn infix(line: &mut Line<'_>) -> Operator {
    match line.word() {
        "+" => Operator::Plus,
        "-" => Operator::Minus,
        "*" => Operator::Times,
        "div" => Operator::Div,
        "rem" => Operator::Rem,
        "mod" => Operator::Mod,
        "**" => Operator::Exponent,
        "<" => Operator::Less,
        "<=" => Operator::LessEqual,
        ">" => Operator::Greater,
        ">=" => Operator::GreaterEqual,
        "=" => Operator::Equal,
        "<>" => Operator::NotEqual,
        "<=>" => Operator::Equivalent,
        "union" => Operator::Union,
        "inter" => Operator::Inter,
        "\\" => Operator::Difference,
        "subset" => Operator::Subset,
        "psubset" => Operator::ProperSubset,
        "in-set" => Operator::InSet,
        "not-in-set" => Operator::NotInSet,
        "..." => Operator::Interval,
        "^" => Operator::Concatenation,
        "at" => Operator::LookUp,
        "++" => Operator::Override,
        "<:" => Operator::DomainRestriction,
        "<-:" => Operator::DomainRemoval,
        ":>" => Operator::RangeRestriction,
        ":->" => Operator::RangeRemoval,
        "munion" => Operator::MapUnion,
        "comp" => Operator::Composition,
        _ => refused(line),
    }
}

fn refused(line: &mut Line<'_>) -> Operator {
    line.refuse();
    Operator::Equal
}
