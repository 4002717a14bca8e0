// Where a type, or a part of one, is wanted.

ghost use Rattle.std.specs.Prelude.{◌≡◌};
ghost use Rattle.grammar_fronts.specs.Turns.{then_wanted};
ghost use Rattle.grammar_fronts.specs.Types.{single, single_type, behind_type};
ghost use Rattle.front_tables.specs.View.{turn_views};

use crate::turn::Turn;
use grammar_fronts::Wanted;
use grammar_words::Word;
use vdm_kinds::Sign;

const UNION_PULL: u32 = 2;

const PRODUCT_PULL: u32 = 4;

/// A single type with these parts, and what is wanted behind it.
fn single(parts: &'static [Wanted], more: &'static [Wanted]) -> Option<Turn>
    ensures { turn_views result ≡ then_wanted (single parts.now) more.now }
{
    Some(Turn::Begins {
        pull: 0,
        parts,
        behind: &[],
        more,
    })
}

/// What begins a type without alternatives and factors, and what is wanted behind it.
pub(crate) fn single_type(word: Word, more: &'static [Wanted]) -> Option<Turn>
    ensures { turn_views result ≡ then_wanted (single_type word) more.now }
{
    match word {
        Word::Basic(_) | Word::Quote => single(&[], more),
        Word::Set | Word::Seq | Word::Seq1 => single(&[Wanted::Of, Wanted::SingleType], more),
        Word::Map | Word::InMap => {
            single(&[Wanted::WholeType, Wanted::To, Wanted::SingleType], more)
        }
        Word::OpenSquare => single(&[Wanted::WholeType, Wanted::CloseSquare], more),
        Word::OpenRound => single(&[Wanted::WholeType, Wanted::CloseRound], more),
        Word::Identifier => single(&[Wanted::BehindClass], more),
        _ => None,
    }
}

/// A further alternative or factor.
pub(crate) fn behind_type(word: Word) -> Option<Turn>
    ensures { turn_views result ≡ behind_type word }
{
    match word {
        Word::Bar => Some(Turn::Adds {
            pull: UNION_PULL,
            parts: &[Wanted::WholeType],
        }),
        Word::Operator(sign) => match sign {
            Sign::Times => Some(Turn::Adds {
                pull: PRODUCT_PULL,
                parts: &[Wanted::WholeType],
            }),
            _ => None,
        },
        _ => None,
    }
}
