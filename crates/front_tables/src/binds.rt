// In binds, in `let`, `def` and `if`, and in `cases`.

ghost use Rattle.std.specs.Prelude.{◌≡◌};
ghost use Rattle.grammar_fronts.specs.Binds as binds;
ghost use Rattle.front_tables.specs.View.{turn_views};

use crate::patterns::pattern;
use crate::turn::{Turn, own};
use grammar_fronts::Wanted;
use grammar_words::Word;
use vdm_kinds::Sign;

/// What stands behind a pattern of a bind.
pub(crate) fn behind_bound(word: Word) -> Option<Turn>
    ensures { turn_views result ≡ binds.behind_bound word }
{
    match word {
        Word::Operator(sign) => match sign {
            Sign::InSet => own(&[Wanted::Expression]),
            _ => None,
        },
        Word::Comma => own(&[Wanted::Pattern, Wanted::BehindBound]),
        Word::In => own(&[Wanted::SetOfBind]),
        _ => None,
    }
}

/// What stands behind the pattern of a bind that has exactly one.
pub(crate) fn behind_only_bound(word: Word) -> Option<Turn>
    ensures { turn_views result ≡ binds.behind_only_bound word }
{
    match word {
        Word::Operator(sign) => match sign {
            Sign::InSet => own(&[Wanted::Expression]),
            _ => None,
        },
        Word::In => own(&[Wanted::SetOfBind]),
        _ => None,
    }
}

/// `,` and a bind.
pub(crate) fn more_binds(word: Word) -> Option<Turn>
    ensures { turn_views result ≡ binds.more_binds word }
{
    match word {
        Word::Comma => own(&[Wanted::Pattern, Wanted::BehindBound, Wanted::MoreBinds]),
        _ => None,
    }
}

/// `&` and a condition.
pub(crate) fn condition(word: Word) -> Option<Turn>
    ensures { turn_views result ≡ binds.condition word }
{
    match word {
        Word::Ampersand => own(&[Wanted::Expression]),
        _ => None,
    }
}

/// What stands behind the first pattern of a `let`.
pub(crate) fn behind_let(word: Word) -> Option<Turn>
    ensures { turn_views result ≡ binds.behind_let word }
{
    match word {
        Word::Operator(sign) => match sign {
            Sign::Equal => own(&[
                Wanted::Expression,
                Wanted::MoreLocals,
                Wanted::In,
                Wanted::Expression,
            ]),
            Sign::InSet => own(&[
                Wanted::Expression,
                Wanted::SuchThat,
                Wanted::In,
                Wanted::Expression,
            ]),
            _ => None,
        },
        Word::Colon => own(&[
            Wanted::WholeType,
            Wanted::Equals,
            Wanted::Expression,
            Wanted::MoreLocals,
            Wanted::In,
            Wanted::Expression,
        ]),
        Word::Comma => own(&[
            Wanted::Pattern,
            Wanted::BehindBound,
            Wanted::SuchThat,
            Wanted::In,
            Wanted::Expression,
        ]),
        Word::In => own(&[Wanted::SetOfBind]),
        _ => None,
    }
}

/// `:` and the type of a local definition.
pub(crate) fn local_type(word: Word) -> Option<Turn>
    ensures { turn_views result ≡ binds.local_type word }
{
    match word {
        Word::Colon => own(&[Wanted::WholeType]),
        _ => None,
    }
}

/// `,` and a local definition.
pub(crate) fn more_locals(word: Word) -> Option<Turn>
    ensures { turn_views result ≡ binds.more_locals word }
{
    match word {
        Word::Comma => own(&[
            Wanted::Pattern,
            Wanted::LocalType,
            Wanted::Equals,
            Wanted::Expression,
            Wanted::MoreLocals,
        ]),
        _ => None,
    }
}

/// `be st` and a condition.
pub(crate) fn such_that(word: Word) -> Option<Turn>
    ensures { turn_views result ≡ binds.such_that word }
{
    match word {
        Word::Be => own(&[Wanted::St, Wanted::Expression]),
        _ => None,
    }
}

/// `elseif` or `else`, and what follows.
pub(crate) fn otherwise(word: Word) -> Option<Turn>
    ensures { turn_views result ≡ binds.otherwise word }
{
    match word {
        Word::Elseif => own(&[
            Wanted::Expression,
            Wanted::Then,
            Wanted::Expression,
            Wanted::Otherwise,
        ]),
        Word::Else => own(&[Wanted::Expression]),
        _ => None,
    }
}

/// What stands behind a pattern of an alternative of `cases`.
pub(crate) fn behind_case(word: Word) -> Option<Turn>
    ensures { turn_views result ≡ binds.behind_case word }
{
    match word {
        Word::Comma => own(&[Wanted::Pattern, Wanted::BehindCase]),
        Word::Arrow => own(&[Wanted::Expression]),
        _ => None,
    }
}

/// `,` and a further alternative of `cases`, or `end`.
pub(crate) fn more_cases(word: Word) -> Option<Turn>
    ensures { turn_views result ≡ binds.more_cases word }
{
    match word {
        Word::Comma => own(&[Wanted::NextCase]),
        Word::End => own(&[]),
        _ => None,
    }
}

/// `others`, or a further alternative of `cases`.
pub(crate) fn next_case(word: Word) -> Option<Turn>
    ensures { turn_views result ≡ binds.next_case word }
{
    match word {
        Word::Others => own(&[Wanted::Arrow, Wanted::Expression, Wanted::End]),
        _ => pattern(word, &[Wanted::BehindCase, Wanted::MoreCases]),
    }
}
