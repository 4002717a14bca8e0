// What is wanted, and the nodes that wait for it.

ghost use Rattle.std.specs.Prelude.{◌≡◌, true, [], ◌∷◌, ◌++◌, OnOk, IfOk};
ghost use Rattle.front_tables.specs.View.{turn_view as inner_view};
ghost use Rattle.stmt_fronts.specs.Depth as depths;
ghost use Rattle.stmt_fronts.specs.Turns.{all_within, calls, followed, wanted_by, within};
ghost use Rattle.stmt_tables.specs.View.{turn_view};

use crate::open_nodes::OpenNodes;
use crate::spares::Spares;
use crate::wanted_stack::WantedStack;
use front_tables::Turn as InnerTurn;
use grammar_fronts::Wanted;
use std::alloc::Global;
use stmt_fronts::{Expected, OpenNode};
use stmt_tables::Turn;
use vdm_kinds::OutOfMemory;

/// What is wanted, and the nodes that wait for it.
#[derive(Drop)]
pub(crate) struct OpenParts {
    pub(crate) wanted: WantedStack,
    pub(crate) nodes: OpenNodes,
}

impl OpenParts {
    /// Nothing is wanted, and no node is open.
    pub(crate) fn new(alloc: Global) -> OpenParts
        ensures wanted { result.wanted ≡ [] }
        ensures nodes { result.nodes ≡ [] }
    {
        OpenParts {
            wanted: WantedStack::empty(alloc),
            nodes: OpenNodes::new(alloc),
        }
    }

    /// The memory of these, where nothing is wanted and no node is open.
    pub(crate) fn emptied(self) -> OpenParts
        ensures wanted { result.wanted ≡ [] }
        ensures nodes { result.nodes ≡ [] }
    {
        let mut parts = self;
        parts.wanted.clear();
        parts.nodes.clear();
        parts
    }

    /// The same once more.
    pub(crate) fn copy(&self, spares: &mut Spares) -> Result<OpenParts, OutOfMemory>
        ensures { IfOk result (λ parts. (parts.wanted ≡ self.now.wanted) × (parts.nodes ≡ self.now.nodes)) }
    {
        let mut parts = spares.take();
        parts.wanted.copy_from(&self.wanted)?;
        parts.nodes.copy_from(&self.nodes)?;
        Ok(parts)
    }

    /// A node is open, with what is wanted now behind it.
    fn open(&mut self, counts: bool, pull: u32, deepest: u32) -> Result<(), OutOfMemory>
        ensures same { self.new.wanted ≡ self.old.wanted }
        ensures open { OnOk result (self.new.nodes ≡ depths.new_node counts pull deepest self.old.wanted ∷ self.old.nodes) }
    {
        let below = self.wanted.len();
        self.nodes.push(OpenNode {
            pull,
            deepest,
            below,
            counts,
        })
    }

    /// A node goes on, begins or has a further part, behind an operand of this depth.
    pub(crate) fn take(&mut self, turn: Turn, read: u32) -> Result<(), OutOfMemory>
        ensures wanted { OnOk result (self.new.wanted ≡ wanted_by (turn_view turn) ++ self.old.wanted) }
        ensures nodes { OnOk result (self.new.nodes ≡ depths.with_turn (turn_view turn) self.old.wanted (depths.nest self.old.nodes read)) }
    {
        match turn {
            Turn::GoesOn { first, parts } => {
                self.wanted.put(parts)?;
                self.wanted.put(first)
            }
            Turn::Begins { parts, behind } => {
                self.wanted.put(behind)?;
                self.open(true, 0, 0)?;
                self.wanted.put(parts)
            }
            Turn::Calls {
                pull,
                parts,
                behind,
            } => self.call(pull, parts, behind),
            Turn::Joins {
                left: _,
                parts,
                behind,
            } => {
                self.wanted.put(behind)?;
                self.open(true, 0, read)?;
                self.wanted.put(parts)
            }
            Turn::Within { turn, more } => self.take_within(turn, more, read),
        }
    }

    /// A primary begins, and a call round it.
    fn call(&mut self, pull: u32, parts: &[Wanted], behind: &[Expected]) -> Result<(), OutOfMemory>
        ensures wanted { OnOk result (self.new.wanted ≡ wanted_by (calls pull (all_within parts.now) behind.now) ++ self.old.wanted) }
        ensures nodes { OnOk result (self.new.nodes
            ≡ depths.with_turn (calls pull (all_within parts.now) behind.now) self.old.wanted (depths.nest self.old.nodes 0)) }
    {
        self.wanted.put(behind)?;
        self.open(false, 0, 0)?;
        self.wanted.push(Expected::Call)?;
        self.open(true, pull, 0)?;
        self.wanted.put_within(parts)
    }

    /// The same as `take` in a type, a pattern or an expression, with what is wanted behind.
    fn take_within(
        &mut self,
        turn: InnerTurn,
        more: &[Expected],
        read: u32,
    ) -> Result<(), OutOfMemory>
        ensures wanted { OnOk result (self.new.wanted ≡ wanted_by (followed more.now (within (inner_view turn))) ++ self.old.wanted) }
        ensures nodes { OnOk result (self.new.nodes
            ≡ depths.with_turn (followed more.now (within (inner_view turn))) self.old.wanted (depths.nest self.old.nodes read)) }
    {
        match turn {
            InnerTurn::GoesOn(parts) => {
                self.wanted.put(more)?;
                self.wanted.put_within(parts)
            }
            InnerTurn::Begins {
                pull,
                parts,
                behind,
                more: last,
            } => {
                self.wanted.put(more)?;
                self.wanted.put_within(last)?;
                self.wanted.put_within(behind)?;
                self.open(true, pull, 0)?;
                self.wanted.put_within(parts)
            }
            InnerTurn::Joins {
                left: _,
                right,
                parts,
                behind,
            } => {
                self.wanted.put(more)?;
                self.wanted.put_within(behind)?;
                self.open(true, right, read)?;
                self.wanted.put_within(parts)
            }
            InnerTurn::Adds { pull, parts } => self.add(pull, parts, more, read),
        }
    }

    /// A part more of the node that pulls as much, or the first of a new one.
    fn add(
        &mut self,
        pull: u32,
        parts: &[Wanted],
        more: &[Expected],
        read: u32,
    ) -> Result<(), OutOfMemory>
        ensures wanted { OnOk result (self.new.wanted ≡ (all_within parts.now ++ more.now) ++ self.old.wanted) }
        ensures nodes { OnOk result (self.new.nodes ≡ depths.added pull (depths.new_node true pull read self.old.wanted) self.old.nodes) }
    {
        let below = self.wanted.len();
        self.nodes.add(OpenNode {
            pull,
            deepest: read,
            below,
            counts: true,
        })?;
        self.wanted.put(more)?;
        self.wanted.put_within(parts)
    }
}
