// The nodes that are open.

ghost use Rattle.std.specs.Prelude.{◌≡◌, [], ◌∷◌, length, filter, max, MatchOption, OnOk, IfOk};
ghost use Rattle.stmt_fronts.specs.declared.open_node.OpenNode.{OpenNode};
ghost use Rattle.stmt_fronts.specs.Depth as depths;
ghost use Rattle.stmt_front_reader.specs.Steps.{IsEnded};

use std::alloc::Global;
use std::marker::Model;
use stmt_fronts::OpenNode;
use vdm_kinds::OutOfMemory;

/// So many nodes may be open round a word, and so deep may a node be.
const NESTING_LIMIT: u32 = 200;

/// The nodes that are open, the innermost at the front.
#[derive(Drop)]
pub(crate) struct OpenNodes {
    // The innermost is the last.
    items: Vec<OpenNode>,
}

impl Model for OpenNodes {
    ghost use Rattle.std.specs.Prelude.{List, reverse};
    ghost use Rattle.stmt_fronts.specs.declared.open_node.OpenNode.{OpenNode};

    ghost Value = { List OpenNode };

    ghost view = { λ s. reverse s.items.items };
}

impl OpenNodes {
    /// No node is open.
    pub(crate) fn new(alloc: Global) -> OpenNodes
        ensures { result ≡ [] }
    {
        OpenNodes {
            items: Vec::new(alloc),
        }
    }

    /// No node is open any more.
    pub(crate) fn clear(&mut self)
        ensures { self.new ≡ [] }
    {
        self.items.clear();
    }

    /// The same nodes are open as there, and no others.
    pub(crate) fn copy_from(&mut self, other: &OpenNodes) -> Result<(), OutOfMemory>
        ensures { OnOk result (self.new ≡ other.now) }
    {
        self.clear();
        Ok(self.items.extend_from_slice(&other.items)?)
    }

    /// Whether more are open than may be.
    pub(crate) fn are_too_many(&self) -> bool
        ensures { result ≡ depths.are_too_many self.now }
    {
        // Most often there are fewer nodes at all.
        self.len() > NESTING_LIMIT as usize && self.counted() > NESTING_LIMIT as usize
    }

    /// How many are open.
    fn len(&self) -> usize
        ensures { result ≡ length self.now }
    {
        self.items.len()
    }

    /// How many are open round what is read.
    #[tactic(auto, using(crate::proofs::Counting::counted_reversed))]
    fn counted(&self) -> usize
        ensures { result ≡ length (filter (λ (node : OpenNode). node.counts) self.now) }
    {
        counting(&self.items)
    }

    /// Takes the innermost.
    fn pop(&mut self) -> Option<OpenNode>
        ensures { MatchOption result ((self.old ≡ []) × (self.new ≡ [])) (λ node. self.old ≡ node ∷ self.new) }
    {
        self.items.pop()
    }

    /// One more is open, within all others.
    pub(crate) fn push(&mut self, node: OpenNode) -> Result<(), OutOfMemory>
        ensures { OnOk result (self.new ≡ node ∷ self.old) }
    {
        Ok(self.items.push(node)?)
    }

    /// One more is open, within all others, where the innermost does not pull as much; else that has one more part.
    pub(crate) fn add(&mut self, node: OpenNode) -> Result<(), OutOfMemory>
        ensures { OnOk result (self.new ≡ depths.added node.pull node self.old) }
    {
        let Some(innermost) = self.pop() else {
            return self.push(node);
        };
        self.push(innermost)?;
        if innermost.pull == node.pull {
            return Ok(());
        }
        self.push(node)
    }

    /// The innermost nodes that are over end, each as a part of the next. Gives how deep the last of them is, 0 where none is
    /// over, and none where one is deeper than may be.
    pub(crate) fn end(&mut self, wanted: usize, pull: u32) -> Result<Option<u32>, OutOfMemory>
        ensures { IfOk result (λ depth. IsEnded (depths.ended wanted pull self.old) self.new depth) }
    {
        let mut depth = 0;
        while let Some(node) = self.pop() {
            let now = with_part(node, depth);
            if !is_over(now, wanted, pull) {
                self.push(now)?;
                return Ok(Some(depth));
            }
            if now.deepest >= NESTING_LIMIT {
                return Ok(None);
            }
            depth = now.deepest + 1;
        }
        Ok(Some(depth))
    }
}

/// How many of the nodes count.
fn counting(nodes: &[OpenNode]) -> usize
    ensures { result ≡ length (filter (λ (node : OpenNode). node.counts) nodes.now) }
{
    nodes.iter().filter(|node| node.counts).count()
}

/// The greater of the two.
fn deeper(a: u32, b: u32) -> u32
    ensures { result ≡ max a b }
{
    if a < b { b } else { a }
}

/// The node with a part of this depth.
fn with_part(node: OpenNode, depth: u32) -> OpenNode
    ensures { result ≡ depths.with_part depth node }
{
    OpenNode {
        deepest: deeper(node.deepest, depth),
        ..node
    }
}

/// Whether nothing of it is wanted any more, or an operator that pulls less takes it as its left operand.
fn is_over(node: OpenNode, wanted: usize, pull: u32) -> bool
    ensures { result ≡ depths.is_over wanted pull node }
{
    wanted <= node.below || pull < node.pull
}
