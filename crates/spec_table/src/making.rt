// The table of a specification.

ghost use Rattle.std.specs.Prelude.{◌≡◌, [], ◌∷◌, map, None, Some, Err, IfOk};
ghost use Rattle.graph_cycles.specs.Graphs.{graph_of};
ghost use Rattle.vdm_kinds.specs.declared.halt.Halt as Halt;
ghost use Rattle.vdm_kinds.specs.declared.spec_fault.SpecFault.{SpecFault};
ghost use Rattle.abstract_syntax.specs.Classes.{ClassTree};
ghost use Rattle.vdm_tree.specs.ClassView.{class_view, spec_view};
ghost use Rattle.class_meaning.specs.Classes.{class_graph as graph_of_classes};
ghost use Rattle.class_meaning.specs.Faults.{table_fault as first_of_faults};
ghost use Rattle.class_index.specs.Lists.{spec_of};
ghost use Rattle.ancestor_lines.specs.Lines.{AreLines};
ghost use Rattle.found_members.specs.Resolved.{Resolves};
ghost use Rattle.spec_table.specs.Tables.{table_spec, table_hosts};

use crate::table::ClassTable;
use crate::typing::types_stand;
use ancestor_lines::{Layouts, lines};
use class_index::{ClassList, class_graph};
use found_members::FoundNames;
use std::alloc::Global;
use table_faults::table_fault;
use vdm_kinds::{Halt, Name, OutOfMemory, SpecFault};
use vdm_tree::{ClassDef, Spec};

/// The table of a specification, for which the host has no rows yet; or the first refusal, where anything is refused.
pub fn table_of(alloc: Global, spec: Spec) -> Result<ClassTable, Halt<SpecFault>>
    ensures ok { IfOk result (λ table. (table_spec table ≡ spec_view spec) × (table_hosts table ≡ []) × (first_of_faults (spec_view spec) ≡ None)) }
    ensures refused { (fault : SpecFault) → result ≡ Err (Halt.Of fault) → first_of_faults (spec_view spec) ≡ Some fault }
{
    let list = ClassList::of(alloc, spec)?;
    let above = classes_above(alloc, &list)?;
    let graph = above.graph.as_slice();
    let lines = above.lines.as_slice();
    let names = FoundNames::of(alloc, &list, graph)?;
    match table_fault(alloc, &list, graph, lines, &names)? {
        Some(fault) => Err(Halt::Of(fault)),
        None => Ok(fine_table(alloc, list, lines, names)?),
    }
}

// Of each class its superclasses, and its ancestors.
#[derive(Drop)]
struct Ancestry {
    graph: Vec<Vec<usize>>,
    lines: Vec<Vec<usize>>,
}

fn classes_above(alloc: Global, list: &ClassList) -> Result<Ancestry, OutOfMemory>
    ensures { IfOk result (λ above. (graph_of above.graph.items ≡ graph_of_classes (spec_of list.now)) × AreLines (graph_of_classes (spec_of list.now)) (graph_of above.lines.items)) }
{
    let graph = class_graph(alloc, list)?;
    let lines = lines(alloc, graph.as_slice())?;
    Ok(Ancestry { graph, lines })
}

// The table of classes of which nothing is refused.
fn fine_table(
    alloc: Global,
    list: ClassList,
    lines: &[Vec<usize>],
    names: FoundNames,
) -> Result<ClassTable, OutOfMemory>
    requires lines { AreLines (graph_of_classes (spec_of list)) (graph_of lines.now) }
    requires names { Resolves names (spec_of list) }
    requires fine { first_of_faults (spec_of list) ≡ None }
    ensures { IfOk result (λ table. (table_spec table ≡ spec_of list) × (table_hosts table ≡ [])) }
{
    let layouts = Layouts::of(alloc, &list, lines)?;
    let class_names = names_of(alloc, list.all())?;
    let types_stand = types_stand(list.all());
    Ok(ClassTable {
        list,
        layouts,
        names,
        class_names,
        types_stand,
        hosts: Vec::new(alloc),
    })
}

fn names_of(alloc: Global, classes: &[ClassDef]) -> Result<Vec<Name>, OutOfMemory>
    ensures { IfOk result (λ names. names.items ≡ map (λ (class : ClassTree). class.name) (map class_view classes.now)) }
{
    let mut names = Vec::new(alloc);
    for class in classes {
        names.push(class.name)?;
    }
    Ok(names)
}
