// The ways in which a word is taken.

ghost use Rattle.std.specs.Prelude.{◌≡◌, ◌∷◌};
ghost use Rattle.grammar_fronts.specs.Table as table;
ghost use Rattle.stmt_fronts.specs.Turns as turns;
ghost use Rattle.stmt_tables.specs.View.{turn_view, way_view, ways_view};

use crate::turn::{Turn, inner};
use grammar_fronts::Wanted;
use grammar_words::Word;
use stmt_fronts::Expected;

/// The ways in which a word is taken where something is wanted, in order.
#[derive(Clone, Copy)]
pub enum Ways {
    NoWay,
    One(Turn),
    Two(Turn, Turn),
}

/// That way, where there is one.
pub(crate) fn at_most(turn: Option<Turn>) -> Ways
    ensures { ways_view result ≡ way_view turn }
{
    match turn {
        Some(turn) => Ways::One(turn),
        None => Ways::NoWay,
    }
}

/// The first way, and then the other one, where there is one.
pub(crate) fn either(first: Turn, second: Option<Turn>) -> Ways
    ensures { ways_view result ≡ turn_view first ∷ way_view second }
{
    match second {
        Some(second) => Ways::Two(first, second),
        None => Ways::One(first),
    }
}

/// What a word does where that is wanted in a type, a pattern or an expression.
pub(crate) fn within(wanted: Wanted, word: Word) -> Ways
    ensures { ways_view result ≡ turns.inner (table.turn wanted word) }
{
    at_most(inner(wanted, word, &[]))
}

/// What is open goes on, and these are wanted next.
pub(crate) fn own(parts: &'static [Expected]) -> Ways
    ensures { ways_view result ≡ turns.own parts.now }
{
    Ways::One(Turn::GoesOn { first: &[], parts })
}

/// A statement with these parts begins, and what is wanted behind it.
pub(crate) fn begins(parts: &'static [Expected], behind: &'static [Expected]) -> Turn
    ensures { turn_view result ≡ turns.begins 0 parts.now behind.now }
{
    Turn::Begins { parts, behind }
}

/// The same, in one way.
pub(crate) fn node(parts: &'static [Expected], behind: &'static [Expected]) -> Ways
    ensures { ways_view result ≡ turns.then_wanted (turns.node parts.now) behind.now }
{
    Ways::One(begins(parts, behind))
}
