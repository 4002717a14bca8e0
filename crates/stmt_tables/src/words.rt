// Where one word alone is wanted, and where a type begins.

ghost use Rattle.std.specs.Prelude.{◌≡◌, [], if◌then◌else◌};
ghost use Rattle.stmt_fronts.specs.Table as table;
ghost use Rattle.stmt_fronts.specs.Turns.{own, no_way};
ghost use Rattle.stmt_tables.specs.View.{ways_view};

use crate::ways::{Ways, own};
use front_tables::turn_of;
use grammar_fronts::Wanted;
use grammar_words::Word;
use stmt_fronts::Expected;
use vdm_kinds::Sign;

/// What one word alone does; where more than it may come, nothing.
pub(crate) fn alone(expected: Expected, word: Word) -> Ways
    ensures { ways_view result ≡ table.alone expected word }
{
    if is_alone(expected, word) {
        own(&[])
    } else {
        Ways::NoWay
    }
}

/// Whether the word is the only one that is wanted there.
fn is_alone(expected: Expected, word: Word) -> bool
    ensures { (if result then own [] else no_way) ≡ table.alone expected word }
{
    match expected {
        Expected::Defined | Expected::DoubleEqual => matches!(word, Word::DoubleEqual),
        Expected::Becomes => matches!(word, Word::Becomes),
        Expected::Do => matches!(word, Word::Do),
        Expected::Dots => matches!(word, Word::Dots),
        Expected::DoubleArrow => matches!(word, Word::DoubleArrow),
        Expected::Implies => match word {
            Word::Operator(sign) => matches!(sign, Sign::Implies),
            _ => false,
        },
        Expected::OpenCurly => matches!(word, Word::OpenCurly),
        Expected::Responsibility => matches!(word, Word::Responsibility),
        Expected::Semicolon => matches!(word, Word::Semicolon),
        Expected::Specified => matches!(word, Word::Specified),
        Expected::Subclass => matches!(word, Word::Subclass),
        Expected::Variables => matches!(word, Word::Variables),
        Expected::With => matches!(word, Word::With),
        Expected::Yet => matches!(word, Word::Yet),
        _ => false,
    }
}

/// Whether the word begins a type that no name begins.
pub(crate) fn begins_type(word: Word) -> bool
    ensures { result ≡ table.begins_type word }
{
    match word {
        Word::Identifier => false,
        _ => turn_of(Wanted::SingleType, word).is_some(),
    }
}
