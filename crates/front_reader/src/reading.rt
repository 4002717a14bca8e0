// A type, a pattern or an expression of which some words were read.

ghost use Rattle.std.specs.Prelude.{◌≡◌, ◌∷◌, ◌++◌, [], List, OnOk, IfOk};
ghost use Rattle.grammar_words.specs.declared.word.Word.{Word};
ghost use Rattle.grammar_fronts.specs.declared.wanted.Wanted.{Wanted as WantedNext};
ghost use Rattle.grammar_fronts.specs.Depth as depths;
ghost use Rattle.grammar_fronts.specs.Turns.{wanted_by};
ghost use Rattle.grammar_fronts.specs.Fronts.{front_from};
ghost use Rattle.grammar_fronts.specs.Viable as viable;
ghost use Rattle.front_tables.specs.View.{turn_view};
ghost use Rattle.front_reader.specs.Readings.{refused_at, IsRefused, IsStep};

use crate::open_nodes::OpenNodes;
use crate::wanted_stack::{Met, WantedStack};
use front_tables::Turn;
use grammar_fronts::{Front, Kind, OpenNode, Reach};
use grammar_words::{PlacedWord, Word};
use std::alloc::Global;
use vdm_kinds::{OutOfMemory, Place};

/// More than any operator pulls: it ends no node.
const CLOSED: u32 = 31;

/// What a word comes to.
pub(crate) enum Step {
    /// It is one of the longest front that is viable.
    Taken,
    /// It is none of that front, or words are too deep.
    Found(Front),
}

/// What is wanted behind the words that were read, and which nodes are open there.
#[derive(Drop)]
pub(crate) struct Reading {
    wanted: WantedStack,
    nodes: OpenNodes,
}

/// How strongly it pulls at what stands before it.
fn pull_of(turn: Turn) -> u32
    ensures { result ≡ depths.pull_of (turn_view turn) }
{
    match turn {
        Turn::GoesOn(_) | Turn::Begins { .. } => CLOSED,
        Turn::Joins { left, .. } => left,
        Turn::Adds { pull, .. } => pull,
    }
}

impl Reading {
    /// Nothing was read yet.
    pub(crate) fn new(alloc: Global, kind: Kind) -> Result<Reading, OutOfMemory>
        ensures { IfOk result (λ r. (r.wanted ≡ viable.start kind) × (r.nodes ≡ [])) }
    {
        Ok(Reading {
            wanted: WantedStack::start(alloc, kind)?,
            nodes: OpenNodes::new(alloc),
        })
    }

    /// A node is open, with what is wanted now behind it.
    fn open(&mut self, pull: u32, deepest: u32) -> Result<(), OutOfMemory>
        ensures same { self.new.wanted ≡ self.old.wanted }
        ensures open { OnOk result (self.new.nodes ≡ depths.new_node pull deepest self.old.wanted ∷ self.old.nodes) }
    {
        let below = self.wanted.len();
        self.nodes.push(OpenNode {
            pull,
            deepest,
            below,
        })
    }

    /// A node goes on, begins or has a further part, behind an operand of this depth.
    fn take(&mut self, turn: Turn, read: u32) -> Result<(), OutOfMemory>
        ensures wanted { OnOk result (self.new.wanted ≡ wanted_by (turn_view turn) ++ self.old.wanted) }
        ensures nodes { OnOk result (self.new.nodes ≡ depths.with_turn (turn_view turn) self.old.wanted (depths.nest self.old.nodes read)) }
    {
        match turn {
            Turn::GoesOn(parts) => self.wanted.put(parts),
            Turn::Begins {
                pull,
                parts,
                behind,
                more,
            } => {
                self.wanted.put(more)?;
                self.wanted.put(behind)?;
                self.open(pull, 0)?;
                self.wanted.put(parts)
            }
            Turn::Joins {
                left: _,
                right,
                parts,
                behind,
            } => {
                self.wanted.put(behind)?;
                self.open(right, read)?;
                self.wanted.put(parts)
            }
            Turn::Adds { pull, parts } => {
                let below = self.wanted.len();
                self.nodes.add(OpenNode {
                    pull,
                    deepest: read,
                    below,
                })?;
                self.wanted.put(parts)
            }
        }
    }

    /// The step of a word that is taken, behind so many others.
    fn taken(
        &mut self,
        turn: Turn,
        count: usize,
        last: Place,
        word: PlacedWord,
    ) -> Result<Step, OutOfMemory>
        ensures { IfOk result (λ step. (before : List WantedNext) → viable.meets word.word before ≡ viable.takes (turn_view turn) self.old.wanted
            → IsStep count last word before self.old.nodes step self.new.wanted self.new.nodes) }
    {
        let left = self.wanted.len() + 1;
        let Some(read) = self.nodes.end(left, pull_of(turn))? else {
            return Ok(Step::Found(Front::TooDeep(last)));
        };
        self.take(turn, read)?;
        if self.nodes.are_too_many() {
            return Ok(Step::Found(Front::TooDeep(word.place)));
        }
        Ok(Step::Taken)
    }

    /// What is found behind so many words where the next one is refused.
    fn refused(
        &mut self,
        count: usize,
        last: Place,
        left: usize,
        left_out: bool,
    ) -> Result<Front, OutOfMemory>
        ensures { IfOk result (λ front. (word : Word) (before : List WantedNext) → IsRefused word before left left_out
            → refused_at count last word before self.old.nodes ≡ front) }
    {
        let Some(_depth) = self.nodes.end(left, CLOSED)? else {
            return Ok(Front::TooDeep(last));
        };
        Ok(Front::Reaches(Reach {
            words: count,
            whole: left == 0,
            left_out,
        }))
    }

    /// A word behind so many others, of which the last is at the place.
    pub(crate) fn step(
        &mut self,
        count: usize,
        last: Place,
        word: PlacedWord,
    ) -> Result<Step, OutOfMemory>
        ensures { IfOk result (λ step. IsStep count last word self.old.wanted self.old.nodes step self.new.wanted self.new.nodes) }
    {
        match self.wanted.meet(word.word) {
            Met::Takes(turn) => self.taken(turn, count, last, word),
            Met::Refuses { left, left_out } => {
                Ok(Step::Found(self.refused(count, last, left, left_out)?))
            }
        }
    }

    /// What is found where no further word stands.
    pub(crate) fn finish(&mut self, count: usize, last: Place) -> Result<Front, OutOfMemory>
        ensures { IfOk result (λ front. front_from count last [] self.old.wanted self.old.nodes ≡ front) }
    {
        match self.wanted.meet(Word::TextEnd) {
            // No word stands for the end of the text, so this does not come.
            Met::Takes(_turn) => Ok(Front::TooDeep(last)),
            Met::Refuses { left, left_out } => self.refused(count, last, left, left_out),
        }
    }
}
