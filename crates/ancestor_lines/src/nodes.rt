// Nodes in the order in which they were added, none twice.

ghost use Rattle.std.specs.Prelude.{◌≡◌, ℕ, false, nat_eq, get_or};
ghost use Rattle.std.specs.List.{list_any, IsDistinct, IsDistinct-prop};

use crate::flags::clear;
use std::alloc::Global;
use std::mem;
use vdm_kinds::OutOfMemory;

/// Nodes in the order in which they were added, none twice. The flag of each is set, and no other. The flags serve one list after the
/// other, since new ones for each node would cost as much as all nodes.
#[derive(Drop)]
pub(crate) struct Nodes {
    flags: Vec<bool>,
    pub(crate) nodes: Vec<usize>,
    ghost marked: { (a : ℕ) → get_or flags.items a false ≡ list_any (nat_eq a) nodes.items },
    ghost apart: { IsDistinct nat_eq nodes.items } by { IsDistinct-prop nat_eq nodes.items },
}

impl Nodes {
    ghost use Rattle.std.specs.Prelude.{◌<◌, [], All, IfOk, OnOk, vec_len};
    ghost use Rattle.graph_cycles.specs.Graphs.{is_in};
    ghost use Rattle.graph_cycles.specs.Growing.{with_node, with_nodes};

    /// No nodes, of so many as there are.
    pub(crate) fn none(alloc: Global, count: usize) -> Result<Nodes, OutOfMemory>
        ensures { IfOk result (λ made. (made.nodes.items ≡ []) × (vec_len made.flags ≡ count)) }
    {
        let flags = vec![in alloc; false; count]?;
        Ok(Nodes {
            flags,
            nodes: Vec::new(alloc),
        })
    }

    /// Whether a node was added.
    fn has(&self, node: usize) -> bool
        requires { node < vec_len self.now.flags }
        ensures { result ≡ is_in self.now.nodes.items node }
    {
        self.flags[node]
    }

    /// Adds a node, which goes last where it is new.
    pub(crate) fn add(&mut self, node: usize) -> Result<(), OutOfMemory>
        requires { node < vec_len self.old.flags }
        ensures nodes { OnOk result (self.new.nodes.items ≡ with_node self.old.nodes.items node) }
        ensures count { vec_len self.new.flags ≡ vec_len self.old.flags }
    {
        if !self.has(node) {
            self.nodes.push(node)?;
            self.flags[node] = true;
        }
        Ok(())
    }

    /// Adds each of these in turn.
    pub(crate) fn add_all(&mut self, nodes: &[usize]) -> Result<(), OutOfMemory>
        requires { All (λ b. b < vec_len self.old.flags) nodes.now }
        ensures nodes { OnOk result (self.new.nodes.items ≡ with_nodes self.old.nodes.items nodes.now) }
        ensures count { vec_len self.new.flags ≡ vec_len self.old.flags }
    {
        for node in nodes {
            self.add(*node)?;
        }
        Ok(())
    }

    /// Gives the nodes away, so that there are none.
    pub(crate) fn take(&mut self, alloc: Global) -> Vec<usize>
        ensures nodes { result.items ≡ self.old.nodes.items }
        ensures below { All (λ b. b < vec_len self.old.flags) result.items }
        ensures none { self.new.nodes.items ≡ [] }
        ensures count { vec_len self.new.flags ≡ vec_len self.old.flags }
    {
        clear(&mut self.flags, &self.nodes);
        mem::replace(&mut self.nodes, Vec::new(alloc))
    }
}
