// Which nodes are on a cycle.

ghost use Rattle.std.specs.Prelude.{◌≡◌, ◌<◌, length, vec_len, IfOk, OnOk};
ghost use Rattle.graph_cycles.specs.Graphs.{graph_of, AreReached, InRange, IsOrder, successors, is_on_cycle, cycles_of};
ghost use Rattle.graph_cycles.specs.Growing.{with_nodes};

use crate::nodes::Nodes;
use crate::placing::placed_nodes;
use std::alloc::Global;
use vdm_kinds::OutOfMemory;

/// Adds the nodes that a node leads to in one step.
fn follow(graph: &[Vec<usize>], found: &mut Nodes, node: usize) -> Result<(), OutOfMemory>
    requires node { node < length graph.now }
    requires in_range { InRange (graph_of graph.now) }
    requires count { vec_len found.old.flags ≡ length graph.now }
    ensures nodes { OnOk result (found.new.nodes.items ≡ with_nodes found.old.nodes.items (successors (graph_of graph.now) node)) }
    ensures count { vec_len found.new.flags ≡ length graph.now }
{
    found.add_all(&graph[node])
}

/// The nodes that a node leads to, those in fewer steps first.
fn reached_nodes(alloc: Global, graph: &[Vec<usize>], start: usize) -> Result<Nodes, OutOfMemory>
    requires start { start < length graph.now }
    requires in_range { InRange (graph_of graph.now) }
    ensures { IfOk result (λ found. AreReached (graph_of graph.now) start found.nodes.items × (vec_len found.flags ≡ length graph.now)) }
{
    let mut found = Nodes::none(alloc, graph.len())?;
    follow(graph, &mut found, start)?;
    let mut next = 0;
    while next < found.nodes.len() {
        let node = found.nodes[next];
        follow(graph, &mut found, node)?;
        next += 1;
    }
    Ok(found)
}

/// Whether a node is on a cycle. One that is placed is on none.
fn is_on_cycle(
    alloc: Global,
    graph: &[Vec<usize>],
    placed: &Nodes,
    node: usize,
) -> Result<bool, OutOfMemory>
    requires node { node < length graph.now }
    requires in_range { InRange (graph_of graph.now) }
    requires placed { IsOrder (graph_of graph.now) placed.now.nodes.items }
    requires count { vec_len placed.now.flags ≡ length graph.now }
    ensures { IfOk result (λ is. is ≡ is_on_cycle (graph_of graph.now) node) }
{
    if placed.has(node) {
        return Ok(false);
    }
    let found = reached_nodes(alloc, graph, node)?;
    Ok(found.has(node))
}

/// Of each node in turn, whether it is on a cycle.
pub fn on_cycles(alloc: Global, graph: &[Vec<usize>]) -> Result<Vec<bool>, OutOfMemory>
    requires { InRange (graph_of graph.now) }
    ensures { IfOk result (λ found. found.items ≡ cycles_of (graph_of graph.now)) }
{
    let placed = placed_nodes(alloc, graph)?;
    let mut found = Vec::new(alloc);
    for node in 0..graph.len() {
        found.push(is_on_cycle(alloc, graph, &placed, node)?)?;
    }
    Ok(found)
}
