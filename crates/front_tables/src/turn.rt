// What a word does where something is wanted.

ghost use Rattle.std.specs.Prelude.{◌≡◌};
ghost use Rattle.grammar_fronts.specs.Turns.{own};
ghost use Rattle.front_tables.specs.View.{turn_views};

use grammar_fronts::Wanted;

/// What a word does where something is wanted. Each list has what is wanted next at its front.
#[derive(Clone, Copy)]
pub enum Turn {
    /// It goes on with the node that is open, and these are wanted in its place.
    GoesOn(&'static [Wanted]),
    /// A node begins with it.
    Begins {
        /// How strongly it pulls at what stands behind its last part, 0 where no operator takes that.
        pull: u32,
        /// What it still has.
        parts: &'static [Wanted],
        /// What may follow it.
        behind: &'static [Wanted],
        /// What is wanted behind that.
        more: &'static [Wanted],
    },
    /// A node begins round what was read.
    Joins {
        /// How strongly it pulls at that.
        left: u32,
        right: u32,
        parts: &'static [Wanted],
        behind: &'static [Wanted],
    },
    /// It adds a part to the node round what was read that pulls as much.
    Adds {
        pull: u32,
        parts: &'static [Wanted],
    },
}

/// It goes on, and these are wanted next.
pub(crate) fn own(parts: &'static [Wanted]) -> Option<Turn>
    ensures { turn_views result ≡ own parts.now }
{
    Some(Turn::GoesOn(parts))
}
