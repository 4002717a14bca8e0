// Where a pattern, or a part of one, is wanted.

ghost use Rattle.std.specs.Prelude.{◌≡◌};
ghost use Rattle.grammar_fronts.specs.Patterns as patterns;
ghost use Rattle.grammar_fronts.specs.Turns.{then_wanted};
ghost use Rattle.front_tables.specs.View.{turn_views};

use crate::turn::{Turn, own};
use grammar_fronts::Wanted;
use grammar_words::Word;
use vdm_kinds::Sign;

const CONCATENATION_PULL: u32 = 2;

/// A pattern with these parts, and what is wanted behind it.
fn single(parts: &'static [Wanted], more: &'static [Wanted]) -> Option<Turn>
    ensures { turn_views result ≡ then_wanted (patterns.single parts.now) more.now }
{
    Some(Turn::Begins {
        pull: 0,
        parts,
        behind: &[Wanted::BehindPattern],
        more,
    })
}

/// What begins a pattern, and what is wanted behind it.
pub(crate) fn pattern(word: Word, more: &'static [Wanted]) -> Option<Turn>
    ensures { turn_views result ≡ then_wanted (patterns.pattern word) more.now }
{
    match word {
        Word::Operator(sign) => match sign {
            Sign::Minus => single(&[], more),
            _ => None,
        },
        Word::Identifier
        | Word::Whole
        | Word::Character
        | Word::Text
        | Word::Quote
        | Word::True
        | Word::False
        | Word::Nil => single(&[], more),
        Word::OpenRound => single(&[Wanted::Expression, Wanted::CloseRound], more),
        Word::OpenCurly => single(&[Wanted::InCurlyPattern], more),
        Word::OpenSquare => single(&[Wanted::InSquarePattern], more),
        Word::MakeTuple => single(
            &[
                Wanted::OpenRound,
                Wanted::Pattern,
                Wanted::Comma,
                Wanted::Pattern,
                Wanted::MorePatterns,
                Wanted::CloseRound,
            ],
            more,
        ),
        Word::MakeNamed => single(
            &[Wanted::BehindClass, Wanted::OpenRound, Wanted::PatternParts],
            more,
        ),
        _ => None,
    }
}

/// `^` and a pattern.
pub(crate) fn behind_pattern(word: Word) -> Option<Turn>
    ensures { turn_views result ≡ patterns.behind_pattern word }
{
    match word {
        Word::Operator(sign) => match sign {
            Sign::Concatenation => Some(Turn::Adds {
                pull: CONCATENATION_PULL,
                parts: &[Wanted::Pattern],
            }),
            _ => None,
        },
        _ => None,
    }
}

/// Behind the `{` of a pattern.
pub(crate) fn in_curly_pattern(word: Word) -> Option<Turn>
    ensures { turn_views result ≡ patterns.in_curly_pattern word }
{
    match word {
        Word::CloseCurly => own(&[]),
        Word::MapsTo => own(&[Wanted::CloseCurly]),
        _ => pattern(word, &[Wanted::BehindFirstInPattern]),
    }
}

/// Behind the first pattern in `{ }`.
pub(crate) fn behind_first_in_pattern(word: Word) -> Option<Turn>
    ensures { turn_views result ≡ patterns.behind_first_in_pattern word }
{
    match word {
        Word::CloseCurly => own(&[]),
        Word::Comma => own(&[Wanted::Pattern, Wanted::MorePatterns, Wanted::CloseCurly]),
        Word::MapsTo => own(&[
            Wanted::Pattern,
            Wanted::MorePatternPairs,
            Wanted::CloseCurly,
        ]),
        _ => None,
    }
}

/// Behind the `[` of a pattern.
pub(crate) fn in_square_pattern(word: Word) -> Option<Turn>
    ensures { turn_views result ≡ patterns.in_square_pattern word }
{
    match word {
        Word::CloseSquare => own(&[]),
        _ => pattern(word, &[Wanted::MorePatterns, Wanted::CloseSquare]),
    }
}

/// The patterns of a record, and its `)`.
pub(crate) fn pattern_parts(word: Word) -> Option<Turn>
    ensures { turn_views result ≡ patterns.pattern_parts word }
{
    match word {
        Word::CloseRound => own(&[]),
        _ => pattern(word, &[Wanted::MorePatterns, Wanted::CloseRound]),
    }
}

/// `,` and a pattern.
pub(crate) fn more_patterns(word: Word) -> Option<Turn>
    ensures { turn_views result ≡ patterns.more_patterns word }
{
    match word {
        Word::Comma => own(&[Wanted::Pattern, Wanted::MorePatterns]),
        _ => None,
    }
}

/// `,` and a pattern, `|->` and a pattern.
pub(crate) fn more_pattern_pairs(word: Word) -> Option<Turn>
    ensures { turn_views result ≡ patterns.more_pattern_pairs word }
{
    match word {
        Word::Comma => own(&[
            Wanted::Pattern,
            Wanted::MapsTo,
            Wanted::Pattern,
            Wanted::MorePatternPairs,
        ]),
        _ => None,
    }
}
