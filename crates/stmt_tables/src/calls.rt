// Where a call may begin, and what stands in it.

ghost use Rattle.std.specs.Prelude.{◌≡◌};
ghost use Rattle.front_tables.specs.View.{turn_views};
ghost use Rattle.stmt_fronts.specs.Statements as statements;
ghost use Rattle.stmt_fronts.specs.Turns as turns;
ghost use Rattle.stmt_tables.specs.View.{turn_view, way_view, ways_view};

use crate::names::{BEHIND_CLASS, CLOSE_ROUND, COMMA, EXPRESSION, IDENTIFIER};
use crate::turn::Turn;
use crate::ways::Ways;
use front_tables::{Turn as InnerTurn, turn_of};
use grammar_fronts::Wanted;
use grammar_words::Word;
use stmt_fronts::Expected;

/// How strongly a postfix pulls at what stands before it.
const POSTFIX_PULL: u32 = 30;

/// What stands between the brackets of a subsequence, and the `)`.
const SUBSEQUENCE: &[Expected] = &[
    EXPRESSION,
    COMMA,
    Expected::Dots,
    COMMA,
    EXPRESSION,
    CLOSE_ROUND,
];

/// Whether a call may begin with the word. No operator begins one, no form that reaches to the right, no `cases` and no `[`.
fn begins_call(word: Word) -> bool
    ensures { result ≡ statements.begins_call word }
{
    !matches!(
        word,
        Word::Operator(_)
            | Word::OpenSquare
            | Word::Let
            | Word::Def
            | Word::If
            | Word::Cases
            | Word::Forall
            | Word::Exists
            | Word::ExistsOne
            | Word::Iota
    )
}

/// A call that begins as an expression does, and what is wanted behind it.
fn call_of(turn: Option<InnerTurn>, behind: &'static [Expected]) -> Option<Turn>
    ensures { way_view result ≡ turns.then_wanted (turns.call_of (turn_views turn)) behind.now }
{
    match turn? {
        InnerTurn::Begins { pull, parts, .. } => Some(Turn::Calls {
            pull,
            parts,
            behind,
        }),
        _ => None,
    }
}

/// A call that begins with the word, and what is wanted behind it.
pub(crate) fn call(word: Word, behind: &'static [Expected]) -> Option<Turn>
    ensures { way_view result ≡ turns.then_wanted (statements.call word) behind.now }
{
    if begins_call(word) {
        call_of(turn_of(Wanted::Expression, word), behind)
    } else {
        None
    }
}

/// A postfix of these parts, and what is wanted behind it.
fn postfix(parts: &'static [Expected], behind: &'static [Expected]) -> Turn
    ensures { turn_view result ≡ turns.joins 30 0 parts.now behind.now }
{
    Turn::Joins {
        left: POSTFIX_PULL,
        parts,
        behind,
    }
}

/// A postfix. The one that comes last is an application; a subsequence is none.
pub(crate) fn call_goes_on(word: Word) -> Ways
    ensures { ways_view result ≡ statements.call_goes_on word }
{
    match word {
        Word::OpenRound => Ways::Two(
            postfix(&[Expected::Within(Wanted::Parts)], &[Expected::Called]),
            postfix(SUBSEQUENCE, &[Expected::Call]),
        ),
        Word::Dot => Ways::One(postfix(&[IDENTIFIER, BEHIND_CLASS], &[Expected::Call])),
        Word::DotNumber => Ways::One(postfix(
            &[Expected::Within(Wanted::Whole)],
            &[Expected::Call],
        )),
        _ => Ways::NoWay,
    }
}
