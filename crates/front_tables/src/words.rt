// Where one word alone is wanted.

ghost use Rattle.std.specs.Prelude.{◌≡◌};
ghost use Rattle.grammar_fronts.specs.Words as words;
ghost use Rattle.front_tables.specs.View.{turn_views};

use crate::turn::{Turn, own};
use grammar_fronts::Wanted;
use grammar_words::Word;
use vdm_kinds::Sign;

/// What one word alone does; where more than it may come, nothing.
pub(crate) fn alone(wanted: Wanted, word: Word) -> Option<Turn>
    ensures { turn_views result ≡ words.alone wanted word }
{
    match wanted {
        Wanted::Identifier => match word {
            Word::Identifier => own(&[]),
            _ => None,
        },
        Wanted::Whole => match word {
            Word::Whole => own(&[]),
            _ => None,
        },
        Wanted::OpenRound => match word {
            Word::OpenRound => own(&[]),
            _ => None,
        },
        Wanted::CloseRound => match word {
            Word::CloseRound => own(&[]),
            _ => None,
        },
        Wanted::CloseSquare => match word {
            Word::CloseSquare => own(&[]),
            _ => None,
        },
        Wanted::CloseCurly => match word {
            Word::CloseCurly => own(&[]),
            _ => None,
        },
        Wanted::Comma => match word {
            Word::Comma => own(&[]),
            _ => None,
        },
        Wanted::Colon => match word {
            Word::Colon => own(&[]),
            _ => None,
        },
        Wanted::MapsTo => match word {
            Word::MapsTo => own(&[]),
            _ => None,
        },
        Wanted::Arrow => match word {
            Word::Arrow => own(&[]),
            _ => None,
        },
        Wanted::Ampersand => match word {
            Word::Ampersand => own(&[]),
            _ => None,
        },
        Wanted::Of => match word {
            Word::Of => own(&[]),
            _ => None,
        },
        Wanted::To => match word {
            Word::To => own(&[]),
            _ => None,
        },
        Wanted::Then => match word {
            Word::Then => own(&[]),
            _ => None,
        },
        Wanted::In => match word {
            Word::In => own(&[]),
            _ => None,
        },
        Wanted::St => match word {
            Word::St => own(&[]),
            _ => None,
        },
        Wanted::End => match word {
            Word::End => own(&[]),
            _ => None,
        },
        Wanted::InOfDef => match word {
            Word::In => own(&[]),
            _ => None,
        },
        Wanted::Equals => match word {
            Word::Operator(sign) => match sign {
                Sign::Equal => own(&[]),
                _ => None,
            },
            _ => None,
        },
        _ => None,
    }
}
