// Laws of the graph of the classes.

ghost use Rattle.std.specs.Prelude.{◌≡◌, length};
ghost use Rattle.abstract_syntax.specs.Classes.{SpecTree};
ghost use Rattle.graph_cycles.specs.Graphs.{InRange};
ghost use Rattle.class_meaning.specs.Classes.{classes, class_graph as graph_of_classes};

/// Each class has its own node, and leads to classes.
pub fn class_graph_is_in_range()
    ensures nodes { (spec : SpecTree) → length (graph_of_classes spec) ≡ length (classes spec) }
    ensures in_range { (spec : SpecTree) → InRange (graph_of_classes spec) }
{}
