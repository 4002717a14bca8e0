// The first refusal.

ghost use Rattle.std.specs.Prelude.{◌≡◌, IfOk};
ghost use Rattle.graph_cycles.specs.Graphs.{graph_of};
ghost use Rattle.class_index.specs.Lists.{spec_of};
ghost use Rattle.class_meaning.specs.Classes.{class_graph};
ghost use Rattle.class_meaning.specs.Faults.{table_fault as first_of_faults};
ghost use Rattle.ancestor_lines.specs.Lines.{AreLines};
ghost use Rattle.found_members.specs.Resolved.{Resolves};

use crate::table::Table;
use class_index::ClassList;
use found_members::FoundNames;
use graph_cycles::on_cycles;
use std::alloc::Global;
use type_graphs::{TypeNumbers, type_graph};
use vdm_kinds::{OutOfMemory, SpecFault};

/// The first refusal of the classes in text order, by the graph of the classes, the ancestors of each and what names mean in each.
pub fn table_fault(
    alloc: Global,
    list: &ClassList,
    graph: &[Vec<usize>],
    lines: &[Vec<usize>],
    names: &FoundNames,
) -> Result<Option<SpecFault>, OutOfMemory>
    requires graph { graph_of graph.now ≡ class_graph (spec_of list.now) }
    requires lines { AreLines (class_graph (spec_of list.now)) (graph_of lines.now) }
    requires names { Resolves names.now (spec_of list.now) }
    ensures { IfOk result (λ fault. fault ≡ first_of_faults (spec_of list.now)) }
{
    let class_cycles = on_cycles(alloc, graph)?;
    let types = type_graph(alloc, list, names)?;
    let type_cycles = on_cycles(alloc, &types)?;
    let numbers = TypeNumbers::of(alloc, list)?;
    let table = Table {
        list,
        lines,
        names,
        numbers: &numbers,
        class_cycles: &class_cycles,
        type_cycles: &type_cycles,
    };
    table.classes_fault(alloc)
}
