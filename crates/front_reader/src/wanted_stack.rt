// What is wanted, as a stack.

ghost use Rattle.std.specs.Prelude.{◌≡◌, ◌<◌, [], ◌∷◌, ◌++◌, length, MatchOption, IfOk, OnOk};
ghost use Rattle.grammar_fronts.specs.Viable.{start};
ghost use Rattle.front_reader.specs.Readings.{IsMet};

use front_tables::{Turn, is_left_out_at, is_optional, turn_of};
use grammar_fronts::{Kind, Wanted};
use grammar_words::Word;
use std::alloc::Global;
use std::marker::Model;
use vdm_kinds::OutOfMemory;

/// What a word meets.
pub enum Met {
    /// Something takes it, and what stood before that was left out.
    Takes(Turn),
    Refuses {
        /// How much still has to come.
        left: usize,
        /// Whether the word is of a form that the profile leaves out.
        left_out: bool,
    },
}

/// What is wanted, the next at the front.
#[derive(Drop)]
pub struct WantedStack {
    // The next is the last.
    items: Vec<Wanted>,
}

impl Model for WantedStack {
    ghost use Rattle.std.specs.Prelude.{List, reverse};
    ghost use Rattle.grammar_fronts.specs.declared.wanted.Wanted.{Wanted};

    ghost Value = { List Wanted };

    ghost view = { λ s. reverse s.items.items };
}

/// What is wanted at the beginning.
fn start(kind: Kind) -> Wanted
    ensures { start kind ≡ result ∷ [] }
{
    match kind {
        Kind::TypeExpr => Wanted::WholeType,
        Kind::Pattern => Wanted::Pattern,
        Kind::Expr => Wanted::Expression,
    }
}

impl WantedStack {
    /// What is wanted at the beginning.
    pub fn start(alloc: Global, kind: Kind) -> Result<WantedStack, OutOfMemory>
        ensures { IfOk result (λ wanted. wanted ≡ start kind) }
    {
        let mut wanted = WantedStack::new(alloc);
        wanted.push(start(kind))?;
        Ok(wanted)
    }

    /// Nothing is wanted.
    fn new(alloc: Global) -> WantedStack
        ensures { result ≡ [] }
    {
        WantedStack {
            items: Vec::new(alloc),
        }
    }

    /// How much is wanted.
    pub fn len(&self) -> usize
        ensures length { result ≡ length self.now }
        ensures bounded { result < usize.MAX }
    {
        self.items.len()
    }

    /// Takes the next.
    fn pop(&mut self) -> Option<Wanted>
        ensures { MatchOption result ((self.old ≡ []) × (self.new ≡ [])) (λ next. self.old ≡ next ∷ self.new) }
    {
        self.items.pop()
    }

    /// It is wanted before all others.
    fn push(&mut self, next: Wanted) -> Result<(), OutOfMemory>
        ensures { OnOk result (self.new ≡ next ∷ self.old) }
    {
        Ok(self.items.push(next)?)
    }

    /// These are wanted before all others.
    pub fn put(&mut self, front: &[Wanted]) -> Result<(), OutOfMemory>
        ensures { OnOk result (self.new ≡ front.now ++ self.old) }
    {
        let mut rest = front;
        while let Some((last, others)) = rest.split_last() {
            self.push(*last)?;
            rest = others;
        }
        Ok(())
    }

    /// The word takes the place of the first of these that wants it; what stands before that is left out.
    pub fn meet(&mut self, word: Word) -> Met
        ensures { IsMet word self.old self.new result }
    {
        let mut left_out = false;
        while let Some(next) = self.pop() {
            if let Some(turn) = turn_of(next, word) {
                return Met::Takes(turn);
            }
            left_out = left_out || is_left_out_at(next, word);
            if !is_optional(next) {
                return Met::Refuses {
                    left: self.len() + 1,
                    left_out,
                };
            }
        }
        Met::Refuses { left: 0, left_out }
    }
}
