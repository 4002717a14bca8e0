// The ancestors of each class.

ghost use Rattle.std.specs.Prelude.{◌≡◌, ℕ, ◌<◌, ◌∷◌, [], length, All, IfOk, OnOk, vec_len, flat_map};
ghost use Rattle.graph_cycles.specs.Graphs.{graph_of, successors, is_in, InRange};
ghost use Rattle.graph_cycles.specs.Growing.{with_nodes};
ghost use Rattle.class_meaning.specs.Ancestors.{ancestors_in};
ghost use Rattle.ancestor_lines.specs.Lines.{AreLines, AreSettled, IsClear};

use crate::nodes::Nodes;
use graph_cycles::order;
use std::alloc::Global;
use vdm_kinds::OutOfMemory;

/// Adds the lists of these nodes, one after the other.
fn add_lines(lines: &[Vec<usize>], found: &mut Nodes, nodes: &[usize]) -> Result<(), OutOfMemory>
    requires nodes { All (λ b. b < length lines.now) nodes.now }
    requires in_range { InRange (graph_of lines.now) }
    requires count { vec_len found.old.flags ≡ length lines.now }
    ensures nodes { OnOk result (found.new.nodes.items ≡ with_nodes found.old.nodes.items (flat_map (successors (graph_of lines.now)) nodes.now)) }
    ensures count { vec_len found.new.flags ≡ length lines.now }
{
    for node in nodes {
        found.add_all(&lines[*node])?;
    }
    Ok(())
}

/// A node, and behind it what the lists of those that it leads to have.
fn settled_line(
    alloc: Global,
    graph: &[Vec<usize>],
    lines: &[Vec<usize>],
    found: &mut Nodes,
    node: usize,
) -> Result<Vec<usize>, OutOfMemory>
    requires node { node < length graph.now }
    requires in_range { InRange (graph_of graph.now) }
    requires count { length lines.now ≡ length graph.now }
    requires lines { InRange (graph_of lines.now) }
    requires found { IsClear found.old (length graph.now) }
    ensures line { IfOk result (λ line. line.items
        ≡ with_nodes (node ∷ []) (flat_map (successors (graph_of lines.now)) (successors (graph_of graph.now) node))) }
    ensures below { IfOk result (λ line. All (λ b. b < length graph.now) line.items) }
    ensures found { OnOk result (IsClear found.new (length graph.now)) }
{
    found.add(node)?;
    add_lines(lines, found, &graph[node])?;
    Ok(found.take(alloc))
}

/// So many lists, with nothing in them.
fn no_lines(alloc: Global, count: usize) -> Result<Vec<Vec<usize>>, OutOfMemory>
    ensures count { IfOk result (λ lines. length (graph_of lines.items) ≡ count) }
    ensures none { IfOk result (λ lines. (a : ℕ) → successors (graph_of lines.items) a ≡ []) }
{
    let mut lines = Vec::new(alloc);
    while lines.len() < count {
        lines.push(Vec::new(alloc))?;
    }
    Ok(lines)
}

/// The lists of the nodes that lead to no cycle, each made behind those of all that it leads to. Those of the others are empty.
fn settled_lines(
    alloc: Global,
    graph: &[Vec<usize>],
    found: &mut Nodes,
) -> Result<Vec<Vec<usize>>, OutOfMemory>
    requires in_range { InRange (graph_of graph.now) }
    requires found { IsClear found.old (length graph.now) }
    ensures lines { IfOk result (λ lines. AreSettled (graph_of graph.now) (graph_of lines.items)) }
    ensures found { OnOk result (IsClear found.new (length graph.now)) }
{
    let nodes = order(alloc, graph)?;
    let mut lines = no_lines(alloc, graph.len())?;
    for node in &nodes {
        let line = settled_line(alloc, graph, &lines, found, *node)?;
        lines[*node] = line;
    }
    Ok(lines)
}

/// Adds the nodes that a node leads to in one step.
fn follow(graph: &[Vec<usize>], found: &mut Nodes, node: usize) -> Result<(), OutOfMemory>
    requires node { node < length graph.now }
    requires in_range { InRange (graph_of graph.now) }
    requires count { vec_len found.old.flags ≡ length graph.now }
    ensures nodes { OnOk result (found.new.nodes.items ≡ with_nodes found.old.nodes.items (successors (graph_of graph.now) node)) }
    ensures count { vec_len found.new.flags ≡ length graph.now }
{
    found.add_all(&graph[node])
}

/// A node and all that it leads to, those in fewer steps first. What leads to a cycle has no order in which each is behind those in front
/// of it.
fn reached_line(
    alloc: Global,
    graph: &[Vec<usize>],
    found: &mut Nodes,
    start: usize,
) -> Result<Vec<usize>, OutOfMemory>
    requires start { start < length graph.now }
    requires in_range { InRange (graph_of graph.now) }
    requires found { IsClear found.old (length graph.now) }
    ensures line { IfOk result (λ line. (b : ℕ) → is_in line.items b ≡ is_in (ancestors_in (graph_of graph.now) start) b) }
    ensures found { OnOk result (IsClear found.new (length graph.now)) }
{
    follow(graph, found, start)?;
    let mut next = 0;
    while next < found.nodes.len() {
        let node = found.nodes[next];
        follow(graph, found, node)?;
        next += 1;
    }
    found.add(start)?;
    Ok(found.take(alloc))
}

/// For each node of a graph itself and all that it leads to, by which each is behind those in front of it.
pub fn lines(alloc: Global, graph: &[Vec<usize>]) -> Result<Vec<Vec<usize>>, OutOfMemory>
    requires { InRange (graph_of graph.now) }
    ensures { IfOk result (λ found. AreLines (graph_of graph.now) (graph_of found.items)) }
{
    let mut found = Nodes::none(alloc, graph.len())?;
    let mut lines = settled_lines(alloc, graph, &mut found)?;
    for node in 0..graph.len() {
        if lines[node].is_empty() {
            let line = reached_line(alloc, graph, &mut found, node)?;
            lines[node] = line;
        }
    }
    Ok(lines)
}
