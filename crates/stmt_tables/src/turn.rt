// What a word does where something is wanted.

ghost use Rattle.std.specs.Prelude.{◌≡◌};
ghost use Rattle.grammar_fronts.specs.Table as table;
ghost use Rattle.stmt_fronts.specs.Turns.{inner, then_wanted};
ghost use Rattle.stmt_tables.specs.View.{way_view};

use front_tables::{Turn as InnerTurn, turn_of};
use grammar_fronts::Wanted;
use grammar_words::Word;
use stmt_fronts::Expected;

/// What a word does where something is wanted. Each list has what is wanted next at its front.
#[derive(Clone, Copy)]
pub enum Turn {
    /// It goes on with what is open. These are wanted in its place: the first ones, and then the parts.
    GoesOn {
        first: &'static [Expected],
        parts: &'static [Expected],
    },
    /// A statement begins with it. No operator takes what stands behind its last part.
    Begins {
        /// What it still has.
        parts: &'static [Expected],
        /// What is wanted behind it.
        behind: &'static [Expected],
    },
    /// A call begins with the primary that begins with it. Behind its parts an application is wanted.
    Calls {
        /// How strongly the primary pulls at what stands behind its last part.
        pull: u32,
        /// What the primary still has.
        parts: &'static [Wanted],
        /// What is wanted behind the call.
        behind: &'static [Expected],
    },
    /// A postfix: a node begins round what was read. No operator takes what stands behind its last part.
    Joins {
        /// How strongly it pulls at that.
        left: u32,
        parts: &'static [Expected],
        behind: &'static [Expected],
    },
    /// What it does in a type, a pattern or an expression, and what is wanted behind that.
    Within {
        turn: InnerTurn,
        more: &'static [Expected],
    },
}

/// What a word does where that is wanted in a type, a pattern or an expression, and what is wanted behind it.
pub(crate) fn inner(wanted: Wanted, word: Word, more: &'static [Expected]) -> Option<Turn>
    ensures { way_view result ≡ then_wanted (inner (table.turn wanted word)) more.now }
{
    match turn_of(wanted, word) {
        Some(turn) => Some(Turn::Within { turn, more }),
        None => None,
    }
}
