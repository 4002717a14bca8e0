// One of the ways to read the tokens so far.

ghost use Rattle.std.specs.Prelude.{◌≡◌, true, false, [], ◌∷◌, List, length, OnOk, IfOk};
ghost use Rattle.front_tables.specs.View.{turn_view as inner_view};
ghost use Rattle.stmt_fronts.specs.declared.expected.Expected.{Expected as ExpectedNext};
ghost use Rattle.stmt_fronts.specs.Depth as depths;
ghost use Rattle.stmt_fronts.specs.Fronts as fronts;
ghost use Rattle.stmt_fronts.specs.Turns.{followed, within};
ghost use Rattle.stmt_fronts.specs.Viable as viable;
ghost use Rattle.stmt_tables.specs.View.{turn_view, way_view};
ghost use Rattle.stmt_front_reader.specs.Held.{wants_expression};
ghost use Rattle.stmt_front_reader.specs.Steps.{IsStep, IsForked, IsEndedBefore, first_of, ending_of, gone_on};
ghost use Rattle.stmt_front_reader.specs.Views.{nesting_of, reading_view};

use crate::item::Item;
use crate::names::Names;
use crate::open_nodes::OpenNodes;
use crate::open_parts::OpenParts;
use crate::spares::Spares;
use crate::wanted_stack::{Met, WantedStack};
use front_tables::Turn as InnerTurn;
use std::alloc::Global;
use stmt_fronts::{Ending, Expected, Kind};
use stmt_tables::Turn;
use vdm_kinds::{OutOfMemory, Place};

/// More than any operator pulls: it ends no node.
const CLOSED: u32 = 31;

/// What a token comes to in a reading.
#[derive(Drop)]
pub(crate) enum Step {
    /// It is not taken.
    Ended(Ending),
    /// It is taken in one way.
    Taken,
    /// It is taken in two ways, and this reading goes on in the second.
    Forked(Reading),
}

/// What is wanted behind the tokens that were read, and which nodes are open there.
#[derive(Drop)]
pub(crate) struct Reading {
    // The nodes count as long as it is not too deep.
    parts: OpenParts,
    names: Names,
    /// Where it is too deep.
    pub(crate) deep: Option<Place>,
    // Of the token before.
    last: Place,
}

/// What is wanted at the beginning.
fn start(kind: Kind) -> Expected
    ensures { viable.start kind ≡ record { wanted = result ∷ []; names = viable.no_names } }
{
    match kind {
        Kind::Stmt => Expected::Statement,
        Kind::Spec => Expected::Classes,
    }
}

/// How strongly it pulls at what stands before it.
fn pull_of(turn: Turn) -> u32
    ensures { result ≡ depths.pull_of (turn_view turn) }
{
    match turn {
        Turn::GoesOn { .. } | Turn::Begins { .. } | Turn::Calls { .. } => CLOSED,
        Turn::Joins { left, .. } => left,
        Turn::Within { turn, .. } => inner_pull_of(turn),
    }
}

/// The same in a type, a pattern or an expression.
fn inner_pull_of(turn: InnerTurn) -> u32
    ensures { (more : List ExpectedNext) → result ≡ depths.pull_of (followed more (within (inner_view turn))) }
{
    match turn {
        InnerTurn::GoesOn(_) | InnerTurn::Begins { .. } => CLOSED,
        InnerTurn::Joins { left, .. } => left,
        InnerTurn::Adds { pull, .. } => pull,
    }
}

impl Reading {
    /// Nothing was read yet.
    pub(crate) fn new(alloc: Global, kind: Kind, place: Place) -> Result<Reading, OutOfMemory>
        ensures { IfOk result (λ r. reading_view r ≡ fronts.first_reading kind place) }
    {
        let parts = OpenParts {
            wanted: WantedStack::new(alloc, start(kind))?,
            nodes: OpenNodes::new(alloc),
        };
        Ok(Reading {
            parts,
            names: Names::new(),
            deep: None,
            last: place,
        })
    }

    /// Whether an expression is wanted next.
    pub(crate) fn wants_expression(&self) -> bool
        ensures { result ≡ wants_expression self.now.parts.wanted }
    {
        self.parts.wanted.wants_expression()
    }

    /// Its parts, where it is over.
    pub(crate) fn into_parts(self) -> OpenParts
        ensures { result ≡ self.parts }
    {
        self.parts
    }

    /// The same reading once more.
    fn copy(&self, spares: &mut Spares) -> Result<Reading, OutOfMemory>
        ensures { IfOk result (λ r. reading_view r ≡ reading_view self.now) }
    {
        Ok(Reading {
            parts: self.parts.copy(spares)?,
            names: self.names,
            deep: self.deep,
            last: self.last,
        })
    }

    /// It is too deep at the place, if it was not before.
    fn mark_deep(&mut self, place: Place)
        ensures deep { self.new.deep ≡ first_of self.old.deep true place }
        ensures same { self.new ≡ record self.old { deep = self.new.deep } }
    {
        if self.deep.is_none() {
            self.deep = Some(place);
        }
    }

    /// What is over before a token ends. Gives how deep the last of that is.
    fn end_before(&mut self, turn: Turn) -> Result<u32, OutOfMemory>
        ensures { IfOk result (λ read. IsEndedBefore (turn_view turn) self.old self.new read) }
    {
        let left = self.parts.wanted.len() + 1;
        let Some(read) = self.parts.nodes.end(left, pull_of(turn))? else {
            self.mark_deep(self.last);
            return Ok(0);
        };
        Ok(read)
    }

    /// A token at the place is taken so, in place of what is gone from what was wanted.
    fn go_on(&mut self, turn: Turn, place: Place) -> Result<(), OutOfMemory>
        ensures { OnOk result (reading_view self.new ≡ gone_on place (reading_view self.old) (turn_view turn)) }
    {
        let read = self.end_before(turn)?;
        self.parts.take(turn, read)?;
        if self.parts.nodes.are_too_many() {
            self.mark_deep(place);
        }
        self.last = place;
        Ok(())
    }

    /// The same in one way or in two.
    fn fork(
        &mut self,
        spares: &mut Spares,
        turn: Turn,
        other: Option<Turn>,
        place: Place,
    ) -> Result<Step, OutOfMemory>
        ensures { IfOk result (λ step. IsForked place (turn_view turn ∷ way_view other) (reading_view self.old) step (reading_view self.new)) }
    {
        let Some(other) = other else {
            self.go_on(turn, place)?;
            return Ok(Step::Taken);
        };
        let mut second = self.copy(spares)?;
        self.go_on(turn, place)?;
        second.go_on(other, place)?;
        Ok(Step::Forked(second))
    }

    /// What it comes to where so much still has to come of what was wanted.
    fn ending(&mut self, left: usize, left_out: bool) -> Result<Ending, OutOfMemory>
        ensures { IfOk result (λ ending. (wanted : List ExpectedNext) → left ≡ length (fronts.needed wanted)
            → ending ≡ ending_of left_out wanted self.old.last (nesting_of self.old.deep self.old.parts.nodes)) }
    {
        if self.parts.nodes.end(left, CLOSED)?.is_none() {
            self.mark_deep(self.last);
        }
        Ok(Ending {
            whole: left == 0,
            left_out,
            deep: self.deep,
        })
    }

    /// A token comes next.
    pub(crate) fn step(&mut self, spares: &mut Spares, item: Item) -> Result<Step, OutOfMemory>
        ensures { IfOk result (λ step. IsStep item (reading_view self.old) step (reading_view self.new)) }
    {
        match self.parts.wanted.meet(self.names, item) {
            Met::Takes(taker) => {
                self.names = self.names.named(taker.expected, item.name);
                self.fork(spares, taker.turn, taker.other, item.place)
            }
            Met::Refuses { left, left_out } => Ok(Step::Ended(self.ending(left, left_out)?)),
        }
    }

    /// No further token comes.
    pub(crate) fn finish(&mut self) -> Result<Ending, OutOfMemory>
        ensures { IfOk result (λ ending. ending ≡ fronts.ending false (reading_view self.old)) }
    {
        let left = self.parts.wanted.needed();
        self.ending(left, false)
    }
}
