// All ways to read the tokens so far.

ghost use Rattle.std.specs.Prelude.{◌≡◌, ◌∷◌, [], ⊤, List, MatchOption, OnOk, IfOk};
ghost use Rattle.std.specs.List.{list_all};
ghost use Rattle.grammar_fronts.specs.declared.front.Front.{Front as FrontOf};
ghost use Rattle.stmt_fronts.specs.Fronts as fronts;
ghost use Rattle.stmt_front_reader.specs.declared.alive.Held.{Held as HeldBack};
ghost use Rattle.stmt_front_reader.specs.Held.{IsFollowed, IsFollowedIf, alive_views, spread, wants_expression};
ghost use Rattle.stmt_front_reader.specs.Steps.{front_at, found};
ghost use Rattle.stmt_front_reader.specs.Views.{reading_views};

use crate::endings::stopped;
use crate::item::{Item, bracket};
use crate::reading::Reading;
use crate::readings::{Next, Readings};
use crate::spares::Spares;
use front_tables::turn_of;
use grammar_fronts::{Front, Wanted};
use std::alloc::Global;
use std::collections::VecDeque;
use stmt_fronts::Kind;
use vdm_kinds::{OutOfMemory, Place};

/// A reading that is held back behind a `(`.
#[derive(Drop)]
pub(crate) struct Held {
    reading: Reading,
    place: Place,
}

/// The ways in which the tokens so far can be read, in order.
///
/// Where `(` after `(` comes, each may begin a block, or the bracketed head of a call. What begins with such a head is held back
/// and takes none of those behind it, since all such readings are lost where what stands in the brackets begins no expression.
#[derive(Drop)]
pub(crate) struct Alive {
    readings: Readings,
    // Each is at its own `(`. Those before it have still to take that.
    held: VecDeque<Held>,
    // Of those that are over.
    spares: Spares,
}

impl Alive {
    /// Nothing was read yet.
    pub(crate) fn new(alloc: Global, kind: Kind, place: Place) -> Result<Alive, OutOfMemory>
        ensures { IfOk result (λ alive. alive_views alive ≡ fronts.first_reading kind place ∷ []) }
    {
        let mut readings = Readings::new(alloc);
        let reading = Reading::new(alloc, kind, place)?;
        readings.readings.push_back(reading)?;
        Ok(Alive {
            readings,
            held: VecDeque::new(alloc),
            spares: Spares::new(alloc),
        })
    }

    /// Takes the first that is held back.
    fn next(&mut self) -> Option<Held>
        ensures first { MatchOption result (self.old.held.items ≡ []) (λ held. self.old.held.items ≡ held ∷ self.new.held.items) }
        ensures none { MatchOption result (self.new.held.items ≡ []) (λ _. ⊤) }
        ensures same { self.new.readings ≡ self.old.readings }
    {
        self.held.pop_front()
    }

    /// What is held back, as it is behind all tokens.
    fn spread(&mut self, alloc: Global) -> Result<Readings, OutOfMemory>
        ensures readings { IfOk result (λ all. reading_views all.readings.items ≡ spread self.old.held.items) }
        ensures held { OnOk result (self.new.held.items ≡ []) }
        ensures same { OnOk result (self.new.readings ≡ self.old.readings) }
    {
        let mut all = Readings::new(alloc);
        while let Some(held) = self.next() {
            let Held { reading, place } = held;
            all.read_each(&mut self.spares, bracket(place))?;
            all.readings.push_front(reading)?;
        }
        Ok(all)
    }

    /// Nothing is held back any more.
    fn settle(&mut self, alloc: Global) -> Result<(), OutOfMemory>
        ensures views { OnOk result (reading_views self.new.readings.readings.items ≡ alive_views self.old) }
        ensures held { OnOk result (self.new.held.items ≡ []) }
    {
        let all = self.spread(alloc)?;
        self.readings.append(all)
    }

    /// What was held back takes the token.
    fn spread_with(&mut self, alloc: Global, item: Item) -> Result<(), OutOfMemory>
        ensures { OnOk result (IsFollowed item self.old self.new) }
    {
        let mut all = self.spread(alloc)?;
        all.read_each(&mut self.spares, item)?;
        self.readings.append(all)
    }

    /// Holds the second of two readings back, where an expression is wanted behind a `(`. Says whether it does.
    fn hold(&mut self, item: Item) -> Result<bool, OutOfMemory>
        ensures { IfOk result (λ is. IsFollowedIf is item self.old self.new) }
    {
        if !item.is_bracket() || self.readings.len() != 2 {
            return Ok(false);
        }
        let Some(reading) = self.readings.readings.pop_back() else {
            return Ok(false);
        };
        if !reading.wants_expression() {
            self.readings.readings.push_back(reading)?;
            return Ok(false);
        }
        self.held.push_back(Held {
            reading,
            place: item.place,
        })?;
        Ok(true)
    }

    /// Whether an expression is wanted in each that is held back.
    fn want_expressions(&self) -> bool
        ensures { result ≡ list_all (λ (held : HeldBack). wants_expression held.reading.parts.wanted) self.now.held.items }
    {
        self.held.iter().all(|held| held.reading.wants_expression())
    }

    /// Lets go what is held back where an expression is wanted and the token begins none. Says whether it does.
    fn lose(&mut self, item: Item) -> Result<bool, OutOfMemory>
        ensures { IfOk result (λ is. IsFollowedIf is item self.old self.new) }
    {
        if self.readings.len() == 0 || turn_of(Wanted::Expression, item.word).is_some() {
            return Ok(false);
        }
        if !self.want_expressions() {
            return Ok(false);
        }
        self.let_go()?;
        Ok(true)
    }

    /// All that is held back is over.
    fn let_go(&mut self) -> Result<(), OutOfMemory>
        ensures held { OnOk result (self.new.held.items ≡ []) }
        ensures same { OnOk result (self.new.readings ≡ self.old.readings) }
    {
        while let Some(held) = self.next() {
            let Held { reading, place: _ } = held;
            self.spares.give(reading.into_parts())?;
        }
        Ok(())
    }

    /// What was held back takes the token, or is held back further on.
    fn follow(&mut self, alloc: Global, item: Item) -> Result<(), OutOfMemory>
        ensures { OnOk result (IsFollowed item self.old self.new) }
    {
        if self.hold(item)? || self.lose(item)? {
            return Ok(());
        }
        self.spread_with(alloc, item)
    }

    /// A token behind so many others.
    pub(crate) fn step(
        &mut self,
        alloc: Global,
        count: usize,
        item: Item,
    ) -> Result<Next, OutOfMemory>
        ensures { IfOk result (λ next. (further : List fronts.Reading → FrontOf)
            → front_at count item (alive_views self.old) further ≡ found next (alive_views self.new) further) }
    {
        if !self.readings.begins_shallow() {
            self.settle(alloc)?;
            return self.readings.step(&mut self.spares, count, item);
        }
        self.readings.read_each(&mut self.spares, item)?;
        self.follow(alloc, item)?;
        if self.readings.len() == 0 {
            return Ok(Next::Found(stopped(count, &self.readings.endings)));
        }
        Ok(Next::GoesOn)
    }

    /// No token stands behind so many.
    pub(crate) fn finish(&mut self, alloc: Global, count: usize) -> Result<Front, OutOfMemory>
        ensures { IfOk result (λ front. fronts.front_from count [] (alive_views self.old) ≡ front) }
    {
        self.settle(alloc)?;
        self.readings.finish(count)
    }
}
