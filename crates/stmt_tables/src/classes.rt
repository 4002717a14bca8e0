// Where a class, or a block of one, is wanted.

ghost use Rattle.std.specs.Prelude.{◌≡◌};
ghost use Rattle.stmt_fronts.specs.Classes as classes;
ghost use Rattle.stmt_tables.specs.View.{ways_view};

use crate::names::{CLOSE_ROUND, COMMA, EXPRESSION, IDENTIFIER, OPEN_ROUND};
use crate::statements::statement;
use crate::ways::{Ways, own};
use grammar_fronts::Wanted;
use grammar_words::Word;
use stmt_fronts::Expected;

const PERIODIC: &[Expected] = &[
    OPEN_ROUND,
    EXPRESSION,
    Expected::PhaseOrClose,
    OPEN_ROUND,
    IDENTIFIER,
    CLOSE_ROUND,
];

/// What stands behind `class`.
const CLASS: &[Expected] = &[
    Expected::ClassName,
    Expected::Superclasses,
    Expected::Blocks,
    Expected::Within(Wanted::End),
    Expected::ClassNameAgain,
    Expected::Classes,
];

/// What stands behind the `is` of a class.
const SUPERCLASSES: &[Expected] = &[
    Expected::Subclass,
    Expected::Within(Wanted::Of),
    IDENTIFIER,
    Expected::Within(Wanted::MoreNames),
];

/// What a thread does.
pub(crate) fn thread_body(word: Word) -> Ways
    ensures { ways_view result ≡ classes.thread_body word }
{
    match word {
        Word::Periodic => own(PERIODIC),
        _ => statement(word),
    }
}

/// `)`, or what may stand behind the period of a periodic thread.
pub(crate) fn phase_or_close(word: Word) -> Ways
    ensures { ways_view result ≡ classes.phase_or_close word }
{
    match word {
        Word::CloseRound => own(&[]),
        Word::Comma => own(&[
            EXPRESSION,
            COMMA,
            EXPRESSION,
            COMMA,
            EXPRESSION,
            CLOSE_ROUND,
        ]),
        _ => Ways::NoWay,
    }
}

/// A `;` that may come.
pub(crate) fn last_semicolon(word: Word) -> Ways
    ensures { ways_view result ≡ classes.last_semicolon word }
{
    match word {
        Word::Semicolon => own(&[]),
        _ => Ways::NoWay,
    }
}

/// A clause of synchronisation.
pub(crate) fn sync_clauses(word: Word) -> Ways
    ensures { ways_view result ≡ classes.sync_clauses word }
{
    match word {
        Word::Per => own(&[
            IDENTIFIER,
            Expected::Implies,
            EXPRESSION,
            Expected::MoreSyncClauses,
        ]),
        Word::Mutex => own(&[OPEN_ROUND, Expected::MutexNames, Expected::MoreSyncClauses]),
        _ => Ways::NoWay,
    }
}

/// `;` and a further clause of synchronisation.
pub(crate) fn more_sync_clauses(word: Word) -> Ways
    ensures { ways_view result ≡ classes.more_sync_clauses word }
{
    match word {
        Word::Semicolon => own(&[Expected::SyncClauses]),
        _ => Ways::NoWay,
    }
}

/// What stands behind the `(` of a `mutex`.
pub(crate) fn mutex_names(word: Word) -> Ways
    ensures { ways_view result ≡ classes.mutex_names word }
{
    match word {
        Word::All => own(&[CLOSE_ROUND]),
        Word::Identifier => own(&[Expected::Within(Wanted::MoreNames), CLOSE_ROUND]),
        _ => Ways::NoWay,
    }
}

/// A class, and those behind it.
pub(crate) fn classes(word: Word) -> Ways
    ensures { ways_view result ≡ classes.classes word }
{
    match word {
        Word::Class => own(CLASS),
        _ => Ways::NoWay,
    }
}

/// `is subclass of` and names.
pub(crate) fn superclasses(word: Word) -> Ways
    ensures { ways_view result ≡ classes.superclasses word }
{
    match word {
        Word::Is => own(SUPERCLASSES),
        _ => Ways::NoWay,
    }
}

/// A block of a class, and those behind it.
pub(crate) fn blocks(word: Word) -> Ways
    ensures { ways_view result ≡ classes.blocks word }
{
    match word {
        Word::Types => own(&[Expected::TypeDefs, Expected::Blocks]),
        Word::Values => own(&[Expected::ValueDefs, Expected::Blocks]),
        Word::Instance => own(&[
            Expected::Variables,
            Expected::VariableItems,
            Expected::Blocks,
        ]),
        Word::Functions => own(&[Expected::FunctionDefs, Expected::Blocks]),
        Word::Operations => own(&[Expected::OperationDefs, Expected::Blocks]),
        Word::Thread => own(&[
            Expected::ThreadBody,
            Expected::LastSemicolon,
            Expected::Blocks,
        ]),
        Word::Sync => own(&[Expected::SyncClauses, Expected::Blocks]),
        _ => Ways::NoWay,
    }
}
