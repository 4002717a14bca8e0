// Several ways to read the tokens so far.

ghost use Rattle.std.specs.Prelude.{◌≡◌, ◌∷◌, ◌++◌, [], List, length, flat_map, is_some, None, IsTrue, MatchOption, OnOk, IfOk};
ghost use Rattle.std.specs.List.{list_all};
ghost use Rattle.grammar_fronts.specs.declared.front.Front.{Front as FrontOf};
ghost use Rattle.stmt_fronts.specs.Fronts as fronts;
ghost use Rattle.stmt_front_reader.specs.declared.reading.Reading.{Reading as RealReading};
ghost use Rattle.stmt_front_reader.specs.Steps.{ended_each, ending_if, front_at, found, went_on};
ghost use Rattle.stmt_front_reader.specs.Views.{first_deep, reading_view, reading_views};

use crate::endings::stopped;
use crate::item::Item;
use crate::reading::{Reading, Step};
use crate::spares::Spares;
use grammar_fronts::Front;
use std::alloc::Global;
use std::collections::VecDeque;
use stmt_fronts::Ending;
use vdm_kinds::{OutOfMemory, Place};

/// What a token comes to in all ways.
pub(crate) enum Next {
    /// One of them takes it.
    GoesOn,
    /// None does, or each is too deep.
    Found(Front),
}

/// Ways in which the tokens so far can be read, in order.
#[derive(Drop)]
pub(crate) struct Readings {
    pub(crate) readings: VecDeque<Reading>,
    /// Of those that end at the token that is read.
    pub(crate) endings: Vec<Ending>,
}

impl Readings {
    /// None.
    pub(crate) fn new(alloc: Global) -> Readings
        ensures readings { result.readings.items ≡ [] }
        ensures endings { result.endings.items ≡ [] }
    {
        Readings {
            readings: VecDeque::new(alloc),
            endings: Vec::new(alloc),
        }
    }

    /// The place where the first is too deep, where each is.
    fn deep_now(&self) -> Option<Place>
        ensures { result ≡ fronts.deep_now (reading_views self.now.readings.items) }
    {
        if self.is_deep_in_all() {
            self.first_deep()
        } else {
            None
        }
    }

    /// Whether each is too deep.
    fn is_deep_in_all(&self) -> bool
        ensures { result ≡ list_all (λ (reading : RealReading). is_some reading.deep) self.now.readings.items }
    {
        self.readings.iter().all(|reading| reading.deep.is_some())
    }

    /// The place where the first is too deep.
    fn first_deep(&self) -> Option<Place>
        ensures { result ≡ first_deep self.now.readings.items }
    {
        match self.readings.front() {
            Some(reading) => reading.deep,
            None => None,
        }
    }

    /// Whether there is a first, and it is not too deep.
    pub(crate) fn begins_shallow(&self) -> bool
        ensures { IsTrue result → (others : List fronts.Reading) → fronts.deep_now (reading_views self.now.readings.items ++ others) ≡ None }
    {
        match self.readings.front() {
            Some(reading) => reading.deep.is_none(),
            None => false,
        }
    }

    /// How many there are.
    pub(crate) fn len(&self) -> usize
        ensures { result ≡ length self.now.readings.items }
    {
        self.readings.len()
    }

    /// Takes the first.
    pub(crate) fn next(&mut self) -> Option<Reading>
        ensures first { MatchOption result (self.old.readings.items ≡ []) (λ reading. self.old.readings.items ≡ reading ∷ self.new.readings.items) }
        ensures same { self.new.endings ≡ self.old.endings }
    {
        self.readings.pop_front()
    }

    /// Puts a reading behind all others, in each way in which it goes on, or else notes its ending.
    fn put(&mut self, spares: &mut Spares, reading: Reading, item: Item) -> Result<(), OutOfMemory>
        ensures readings { OnOk result (reading_views self.new.readings.items
            ≡ reading_views self.old.readings.items ++ went_on item (reading_view reading)) }
        ensures endings { OnOk result (self.new.endings.items
            ≡ self.old.endings.items ++ ending_if (went_on item (reading_view reading)) (fronts.ending_at item.word (reading_view reading))) }
    {
        let mut reading = reading;
        match reading.step(spares, item)? {
            Step::Ended(ending) => {
                self.endings.push(ending)?;
                spares.give(reading.into_parts())
            }
            Step::Taken => Ok(self.readings.push_back(reading)?),
            Step::Forked(other) => {
                self.readings.push_back(reading)?;
                Ok(self.readings.push_back(other)?)
            }
        }
    }

    /// Each of them goes on or ends.
    pub(crate) fn read_each(&mut self, spares: &mut Spares, item: Item) -> Result<(), OutOfMemory>
        ensures readings { OnOk result (reading_views self.new.readings.items
            ≡ flat_map (went_on item) (reading_views self.old.readings.items)) }
        ensures endings { OnOk result (self.new.endings.items ≡ ended_each item (reading_views self.old.readings.items)) }
    {
        self.endings.clear();
        let mut left = self.len();
        while left > 0 {
            let Some(reading) = self.next() else {
                return Ok(());
            };
            self.put(spares, reading, item)?;
            left -= 1;
        }
        Ok(())
    }

    /// A token behind so many others.
    pub(crate) fn step(
        &mut self,
        spares: &mut Spares,
        count: usize,
        item: Item,
    ) -> Result<Next, OutOfMemory>
        ensures { IfOk result (λ next. (further : List fronts.Reading → FrontOf)
            → front_at count item (reading_views self.old.readings.items) further ≡ found next (reading_views self.new.readings.items) further) }
    {
        if let Some(place) = self.deep_now() {
            return Ok(Next::Found(Front::TooDeep(place)));
        }
        self.read_each(spares, item)?;
        if self.len() == 0 {
            return Ok(Next::Found(stopped(count, &self.endings)));
        }
        Ok(Next::GoesOn)
    }

    /// No token stands behind so many.
    pub(crate) fn finish(&mut self, count: usize) -> Result<Front, OutOfMemory>
        ensures { IfOk result (λ front. fronts.front_from count [] (reading_views self.old.readings.items) ≡ front) }
    {
        if let Some(place) = self.deep_now() {
            return Ok(Front::TooDeep(place));
        }
        self.endings.clear();
        while let Some(reading) = self.next() {
            let mut reading = reading;
            self.endings.push(reading.finish()?)?;
        }
        Ok(stopped(count, &self.endings))
    }

    /// These too, behind those that are there.
    pub(crate) fn append(&mut self, others: Readings) -> Result<(), OutOfMemory>
        ensures readings { OnOk result (self.new.readings.items ≡ self.old.readings.items ++ others.readings.items) }
        ensures endings { OnOk result (self.new.endings.items ≡ self.old.endings.items ++ others.endings.items) }
    {
        let mut others = others;
        self.readings.append(&mut others.readings)?;
        Ok(self.endings.extend_from_slice(&others.endings)?)
    }
}
