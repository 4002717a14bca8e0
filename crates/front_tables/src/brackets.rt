// Within the brackets of sets, maps, sequences and applications.

ghost use Rattle.std.specs.Prelude.{◌≡◌};
ghost use Rattle.grammar_fronts.specs.Brackets as brackets;
ghost use Rattle.front_tables.specs.View.{turn_views};

use crate::operands::expression;
use crate::turn::{Turn, own};
use grammar_fronts::Wanted;
use grammar_words::Word;

/// The binds of a comprehension of a set or a map, its condition and its `}`.
const COMPREHENSION: &[Wanted] = &[
    Wanted::Pattern,
    Wanted::BehindBound,
    Wanted::MoreBinds,
    Wanted::Condition,
    Wanted::CloseCurly,
];

/// What stands behind a `{`.
pub(crate) fn in_curly(word: Word) -> Option<Turn>
    ensures { turn_views result ≡ brackets.in_curly word }
{
    match word {
        Word::CloseCurly => own(&[]),
        Word::MapsTo => own(&[Wanted::CloseCurly]),
        _ => expression(word, &[Wanted::BehindFirstInCurly]),
    }
}

/// What stands behind the first expression in `{ }`.
pub(crate) fn behind_first_in_curly(word: Word) -> Option<Turn>
    ensures { turn_views result ≡ brackets.behind_first_in_curly word }
{
    match word {
        Word::CloseCurly => own(&[]),
        Word::Comma => own(&[Wanted::SecondInCurly]),
        Word::Bar => own(COMPREHENSION),
        Word::MapsTo => own(&[Wanted::Expression, Wanted::BehindFirstPair]),
        _ => None,
    }
}

/// What stands behind the first `,` in `{ }`.
pub(crate) fn second_in_curly(word: Word) -> Option<Turn>
    ensures { turn_views result ≡ brackets.second_in_curly word }
{
    match word {
        Word::Dots => own(&[Wanted::Comma, Wanted::Expression, Wanted::CloseCurly]),
        _ => expression(word, &[Wanted::MoreExpressions, Wanted::CloseCurly]),
    }
}

/// What stands behind the first `a |-> b` in `{ }`.
pub(crate) fn behind_first_pair(word: Word) -> Option<Turn>
    ensures { turn_views result ≡ brackets.behind_first_pair word }
{
    match word {
        Word::CloseCurly => own(&[]),
        Word::Comma => own(&[
            Wanted::Expression,
            Wanted::MapsTo,
            Wanted::Expression,
            Wanted::MorePairs,
            Wanted::CloseCurly,
        ]),
        Word::Bar => own(COMPREHENSION),
        _ => None,
    }
}

/// `,` and a further `a |-> b`.
pub(crate) fn more_pairs(word: Word) -> Option<Turn>
    ensures { turn_views result ≡ brackets.more_pairs word }
{
    match word {
        Word::Comma => own(&[
            Wanted::Expression,
            Wanted::MapsTo,
            Wanted::Expression,
            Wanted::MorePairs,
        ]),
        _ => None,
    }
}

/// What stands behind a `[`.
pub(crate) fn in_square(word: Word) -> Option<Turn>
    ensures { turn_views result ≡ brackets.in_square word }
{
    match word {
        Word::CloseSquare => own(&[]),
        _ => expression(word, &[Wanted::BehindFirstInSquare]),
    }
}

/// What stands behind the first expression in `[ ]`.
pub(crate) fn behind_first_in_square(word: Word) -> Option<Turn>
    ensures { turn_views result ≡ brackets.behind_first_in_square word }
{
    match word {
        Word::CloseSquare => own(&[]),
        Word::Comma => own(&[
            Wanted::Expression,
            Wanted::MoreExpressions,
            Wanted::CloseSquare,
        ]),
        Word::Bar => own(&[
            Wanted::Pattern,
            Wanted::BehindOnlyBound,
            Wanted::Condition,
            Wanted::CloseSquare,
        ]),
        _ => None,
    }
}

/// What stands behind the `(` of an application.
pub(crate) fn arguments(word: Word) -> Option<Turn>
    ensures { turn_views result ≡ brackets.arguments word }
{
    match word {
        Word::CloseRound => own(&[]),
        _ => expression(word, &[Wanted::BehindFirstArgument]),
    }
}

/// What stands behind the first argument.
pub(crate) fn behind_first_argument(word: Word) -> Option<Turn>
    ensures { turn_views result ≡ brackets.behind_first_argument word }
{
    match word {
        Word::CloseRound => own(&[]),
        Word::Comma => own(&[Wanted::SecondArgument]),
        _ => None,
    }
}

/// What stands behind the first `,` between arguments.
pub(crate) fn second_argument(word: Word) -> Option<Turn>
    ensures { turn_views result ≡ brackets.second_argument word }
{
    match word {
        Word::Dots => own(&[Wanted::Comma, Wanted::Expression, Wanted::CloseRound]),
        _ => expression(word, &[Wanted::MoreExpressions, Wanted::CloseRound]),
    }
}

/// `,` and a further `f |-> a` of `mu`.
pub(crate) fn more_changes(word: Word) -> Option<Turn>
    ensures { turn_views result ≡ brackets.more_changes word }
{
    match word {
        Word::Comma => own(&[
            Wanted::Identifier,
            Wanted::MapsTo,
            Wanted::Expression,
            Wanted::MoreChanges,
        ]),
        _ => None,
    }
}

/// `,` and a further name of a counter.
pub(crate) fn more_names(word: Word) -> Option<Turn>
    ensures { turn_views result ≡ brackets.more_names word }
{
    match word {
        Word::Comma => own(&[Wanted::Identifier, Wanted::MoreNames]),
        _ => None,
    }
}
