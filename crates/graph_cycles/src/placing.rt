// An order of the nodes that lead to no cycle.

ghost use Rattle.std.specs.Prelude.{◌≡◌, ◌<◌, length, vec_len, IfOk, OnOk};
ghost use Rattle.graph_cycles.specs.Graphs.{graph_of, InRange, IsOrder};
ghost use Rattle.graph_cycles.specs.Growing.{with_ready, with_all_ready};

use crate::nodes::Nodes;
use std::alloc::Global;
use vdm_kinds::OutOfMemory;

/// Places a node, where all that it leads to are placed.
fn place_ready(graph: &[Vec<usize>], placed: &mut Nodes, node: usize) -> Result<(), OutOfMemory>
    requires node { node < length graph.now }
    requires in_range { InRange (graph_of graph.now) }
    requires count { vec_len placed.old.flags ≡ length graph.now }
    ensures nodes { OnOk result (placed.new.nodes.items ≡ with_ready (graph_of graph.now) placed.old.nodes.items node) }
    ensures count { vec_len placed.new.flags ≡ length graph.now }
{
    if placed.has_all(&graph[node]) {
        placed.add(node)?;
    }
    Ok(())
}

/// Goes over all nodes in turn, and places those that can be.
fn place_all_ready(graph: &[Vec<usize>], placed: &mut Nodes) -> Result<(), OutOfMemory>
    requires in_range { InRange (graph_of graph.now) }
    requires count { vec_len placed.old.flags ≡ length graph.now }
    ensures nodes { OnOk result (placed.new.nodes.items ≡ with_all_ready (graph_of graph.now) placed.old.nodes.items) }
    ensures count { vec_len placed.new.flags ≡ length graph.now }
{
    for node in 0..graph.len() {
        place_ready(graph, placed, node)?;
    }
    Ok(())
}

/// The nodes that lead to no cycle, in order.
pub(crate) fn placed_nodes(alloc: Global, graph: &[Vec<usize>]) -> Result<Nodes, OutOfMemory>
    requires { InRange (graph_of graph.now) }
    ensures { IfOk result (λ placed. IsOrder (graph_of graph.now) placed.nodes.items × (vec_len placed.flags ≡ length graph.now)) }
{
    let mut placed = Nodes::none(alloc, graph.len())?;
    loop {
        let count = placed.nodes.len();
        place_all_ready(graph, &mut placed)?;
        if placed.nodes.len() == count {
            return Ok(placed);
        }
    }
}

/// The nodes that lead to no cycle, each behind all that it leads to. It goes over the graph once more for each time that a node has a
/// lower number than one that it leads to, along the path with the most such steps.
pub fn order(alloc: Global, graph: &[Vec<usize>]) -> Result<Vec<usize>, OutOfMemory>
    requires { InRange (graph_of graph.now) }
    ensures { IfOk result (λ nodes. IsOrder (graph_of graph.now) nodes.items) }
{
    Ok(placed_nodes(alloc, graph)?.nodes)
}
