// What is wanted, as a stack.

ghost use Rattle.std.specs.Prelude.{◌≡◌, ◌<◌, List, [], ◌∷◌, ◌++◌, length, if◌then◌else◌, MatchOption, OnOk, IfOk};
ghost use Rattle.stmt_fronts.specs.declared.expected.Expected.{Expected as ExpectedNext};
ghost use Rattle.stmt_fronts.specs.Fronts.{needed};
ghost use Rattle.stmt_fronts.specs.Table.{is_optional};
ghost use Rattle.stmt_fronts.specs.Turns.{all_within};
ghost use Rattle.stmt_fronts.specs.Viable.{ways_from};
ghost use Rattle.stmt_front_reader.specs.Held.{wants_expression};
ghost use Rattle.stmt_front_reader.specs.Steps.{IsMet, ways_taken};
ghost use Rattle.stmt_front_reader.specs.Views.{names_view};

use crate::item::Item;
use crate::names::Names;
use grammar_fronts::Wanted;
use std::alloc::Global;
use std::marker::Model;
use stmt_fronts::Expected;
use stmt_tables::{Turn, Ways, is_left_out_at, is_optional, turns_of};
use vdm_kinds::OutOfMemory;

/// What takes a word.
#[derive(Clone, Copy)]
pub(crate) struct Taker {
    /// What was wanted where it stands.
    pub(crate) expected: Expected,
    pub(crate) turn: Turn,
    /// What else the word may do there.
    pub(crate) other: Option<Turn>,
}

/// What a word meets.
pub(crate) enum Met {
    /// This takes it, and what stood before that was left out.
    Takes(Taker),
    /// Nothing takes it.
    Refuses {
        /// How much still has to come.
        left: usize,
        /// Whether the word is of a form that the profile leaves out.
        left_out: bool,
    },
}

/// What takes a word where this is wanted. A second name has to be the first.
fn taken_by(names: Names, expected: Expected, item: Item) -> Option<Taker>
    ensures { MatchOption result
        ((behind : List ExpectedNext) → ways_from (names_view names) item.word item.name (expected ∷ behind)
        ≡ (if is_optional expected then ways_from (names_view names) item.word item.name behind else []))
        (λ taker. (behind : List ExpectedNext) → ways_from (names_view names) item.word item.name (expected ∷ behind)
        ≡ ways_taken (names_view names) item.name behind taker) }
{
    let (turn, other) = match turns_of(expected, item.word) {
        Ways::NoWay => return None,
        Ways::One(turn) => (turn, None),
        Ways::Two(turn, other) => (turn, Some(other)),
    };
    if !names.fits(expected, item.name) {
        return None;
    }
    Some(Taker {
        expected,
        turn,
        other,
    })
}

/// What is wanted, the next at the front.
#[derive(Drop)]
pub(crate) struct WantedStack {
    // The next is the last.
    items: Vec<Expected>,
}

impl Model for WantedStack {
    ghost use Rattle.std.specs.Prelude.{List, reverse};
    ghost use Rattle.stmt_fronts.specs.declared.expected.Expected.{Expected};

    ghost Value = { List Expected };

    ghost view = { λ s. reverse s.items.items };
}

impl WantedStack {
    /// This is wanted.
    pub(crate) fn new(alloc: Global, next: Expected) -> Result<WantedStack, OutOfMemory>
        ensures { IfOk result (λ stack. stack ≡ next ∷ []) }
    {
        Ok(WantedStack {
            items: Vec::from_slice(alloc, &[next])?,
        })
    }

    /// Nothing is wanted.
    pub(crate) fn empty(alloc: Global) -> WantedStack
        ensures { result ≡ [] }
    {
        WantedStack {
            items: Vec::new(alloc),
        }
    }

    /// Nothing is wanted any more.
    pub(crate) fn clear(&mut self)
        ensures { self.new ≡ [] }
    {
        self.items.clear();
    }

    /// The same is wanted as there, and nothing else.
    pub(crate) fn copy_from(&mut self, other: &WantedStack) -> Result<(), OutOfMemory>
        ensures { OnOk result (self.new ≡ other.now) }
    {
        self.clear();
        Ok(self.items.extend_from_slice(&other.items)?)
    }

    /// How much is wanted.
    pub(crate) fn len(&self) -> usize
        ensures length { result ≡ length self.now }
        ensures bounded { result < usize.MAX }
    {
        self.items.len()
    }

    /// Whether an expression is wanted next.
    pub(crate) fn wants_expression(&self) -> bool
        ensures { result ≡ wants_expression self.now }
    {
        match self.items.last() {
            Some(next) => matches!(next, Expected::Within(Wanted::Expression)),
            None => false,
        }
    }

    /// Takes the next.
    fn pop(&mut self) -> Option<Expected>
        ensures { MatchOption result ((self.old ≡ []) × (self.new ≡ [])) (λ next. self.old ≡ next ∷ self.new) }
    {
        self.items.pop()
    }

    /// It is wanted before all others.
    pub(crate) fn push(&mut self, next: Expected) -> Result<(), OutOfMemory>
        ensures { OnOk result (self.new ≡ next ∷ self.old) }
    {
        Ok(self.items.push(next)?)
    }

    /// These are wanted before all others.
    pub(crate) fn put(&mut self, front: &[Expected]) -> Result<(), OutOfMemory>
        ensures { OnOk result (self.new ≡ front.now ++ self.old) }
    {
        let mut rest = front;
        while let Some((last, others)) = rest.split_last() {
            self.push(*last)?;
            rest = others;
        }
        Ok(())
    }

    /// These are wanted before all others, in a type, a pattern or an expression.
    pub(crate) fn put_within(&mut self, front: &[Wanted]) -> Result<(), OutOfMemory>
        ensures { OnOk result (self.new ≡ all_within front.now ++ self.old) }
    {
        let mut rest = front;
        while let Some((last, others)) = rest.split_last() {
            self.push(Expected::Within(*last))?;
            rest = others;
        }
        Ok(())
    }

    /// The word takes the place of the first of these that wants it; what stands before that is left out. A second name has to
    /// be the first.
    pub(crate) fn meet(&mut self, names: Names, item: Item) -> Met
        ensures { IsMet (names_view names) item.word item.name self.old self.new result }
    {
        let mut left_out = false;
        while let Some(next) = self.pop() {
            if let Some(taker) = taken_by(names, next, item) {
                return Met::Takes(taker);
            }
            left_out = left_out || is_left_out_at(next, item.word);
            if !is_optional(next) {
                return Met::Refuses {
                    left: self.len() + 1,
                    left_out,
                };
            }
        }
        Met::Refuses { left: 0, left_out }
    }

    /// How much has to come where no further word stands.
    pub(crate) fn needed(&mut self) -> usize
        ensures { result ≡ length (needed self.old) }
    {
        while let Some(next) = self.pop() {
            if !is_optional(next) {
                return self.len() + 1;
            }
        }
        0
    }
}
