//! The rule over the words of a lock, its slot and what its passes know.
use crate::storied::Storied;
use crate::view::View;
use atomic_table::{Join, Play, Seat, Shared, Split, Table, TableRule};
use std::alloc::Global;
use std::marker::PhantomData;
use std::snapshot::Snapshot;

/// The word with the next turn number.
pub(crate) const NEXT: usize = 0;
/// The word with the turn number that is served.
pub(crate) const NOW: usize = 1;
/// The word with the number of notes since the lock was made.
pub(crate) const NOTES: usize = 2;
/// The one slot, which has the value while no turn is taken.
pub(crate) const HOME: usize = 0;

/// What a lock is told once, when it is made.
#[derive(Drop)]
pub struct Opening<V> {
    pub passes: u64,
    pub first: Snapshot<V>,
}

/// The rule of every turn lock: `IsKept`.
pub struct Turns;

impl<V: Storied> TableRule<Option<V>, View<V::Note>, Opening<V>> for Turns {
    ghost use Rattle.turn_lock.specs.Rule.{IsKept};
    ghost use Rattle.turn_lock.specs.Views.{fresh};

    ghost holds = { λ key. IsKept V.story V.adds_up key.passes (V.story key.first.value) };

    ghost first = { λ key. fresh key.passes (V.story key.first.value) };
}

pub(crate) type Board<V> = Table<Option<V>, View<<V as Storied>::Note>, Opening<V>, Turns, Global>;

pub(crate) type Top<V> = Shared<Option<V>, View<<V as Storied>::Note>, Opening<V>, Turns>;

pub(crate) type Place<V> = Seat<Option<V>, View<<V as Storied>::Note>>;

/// A turn number is drawn.
pub(crate) struct Draw;

impl<V: Storied> Play<Option<V>, View<V::Note>> for Draw {
    ghost use Rattle.turn_lock.specs.Steps.{Draws};

    ghost then = { Draws };
}

/// One looks whether one's number is served.
pub(crate) struct Look;

impl<V: Storied> Play<Option<V>, View<V::Note>> for Look {
    ghost use Rattle.turn_lock.specs.Steps.{Looks};

    ghost then = { Looks V.story V.adds_up };
}

/// The entry of a note, which a caller picks, since a step cannot see the value in hand.
pub(crate) trait Adds<E> {
    ghost use Rattle.std.specs.Prelude.{List};

    ghost added: { List E };
}

impl<E> Adds<E> for std::marker::Brand {
    ghost use Rattle.std.specs.Prelude.{[]};

    ghost added = { [] };
}

/// An entry is noted.
pub(crate) struct Note<J> {
    entry: PhantomData<J>,
}

impl<V: Storied, J: Adds<V::Note>> Play<Option<V>, View<V::Note>> for Note<J> {
    ghost use Rattle.turn_lock.specs.Steps.{Notes};

    ghost then = { Notes J.added };
}

/// The next number is served.
pub(crate) struct Serve;

impl<V: Storied> Play<Option<V>, View<V::Note>> for Serve {
    ghost use Rattle.turn_lock.specs.Steps.{Serves};

    ghost then = { Serves };
}

/// A fresh view is cut in two, and the second stands for one pass.
pub(crate) struct Part;

impl<E> Split<View<E>> for Part {
    ghost use Rattle.std.specs.Prelude.{◌-◌};
    ghost use Rattle.turn_lock.specs.Views.{fresh};

    ghost left = { λ v. fresh (v.passes - 1) v.base };

    ghost right = { λ v. fresh 1 v.base };
}

/// Two views become one.
pub(crate) struct Pool;

impl<E> Join<View<E>> for Pool {
    ghost use Rattle.turn_lock.specs.Views.{pooled, blank};

    ghost both = { pooled };

    ghost spent = { blank };
}
