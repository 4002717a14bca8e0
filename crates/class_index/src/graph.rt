// Which classes lead to which.

ghost use Rattle.std.specs.Prelude.{◌≡◌, IfOk};
ghost use Rattle.graph_cycles.specs.Graphs.{graph_of};
ghost use Rattle.class_meaning.specs.Classes.{class_graph as graph_of_classes, superclass_numbers as numbers_above};
ghost use Rattle.vdm_tree.specs.ClassView.{class_view};
ghost use Rattle.class_index.specs.Lists.{spec_of};

use crate::class_list::ClassList;
use std::alloc::Global;
use vdm_kinds::OutOfMemory;
use vdm_tree::ClassDef;

/// The numbers of the superclasses of a class, as written.
fn superclass_numbers(
    alloc: Global,
    list: &ClassList,
    class: &ClassDef,
) -> Result<Vec<usize>, OutOfMemory>
    ensures { IfOk result (λ numbers. numbers.items ≡ numbers_above (spec_of list.now) (class_view class.now)) }
{
    let mut numbers = Vec::new(alloc);
    for superclass in &class.superclasses {
        if let Some(number) = list.number(superclass.name) {
            numbers.push(number)?;
        }
    }
    Ok(numbers)
}

/// For each class the numbers of its superclasses, as written. A name that is no class's has none.
pub fn class_graph(alloc: Global, list: &ClassList) -> Result<Vec<Vec<usize>>, OutOfMemory>
    ensures { IfOk result (λ graph. graph_of graph.items ≡ graph_of_classes (spec_of list.now)) }
{
    let mut graph = Vec::new(alloc);
    for class in list.all() {
        graph.push(superclass_numbers(alloc, list, class)?)?;
    }
    Ok(graph)
}
