// How the objects of each class are laid out.

use crate::gathered::{all_layouts, all_names, all_operations, names_at, variables_at};
use crate::own::{own_operations, own_variables};
use class_index::ClassList;
use std::alloc::Global;
use vdm_kinds::{Name, OutOfMemory, VarRef};

/// Of each class its ancestors, the variables of its objects and of its class object, and the names of the operations that its objects
/// count.
#[derive(Drop)]
pub struct Layouts {
    names: Vec<Vec<Name>>,
    layouts: Vec<Vec<VarRef>>,
    statics: Vec<Vec<VarRef>>,
    operations: Vec<Vec<Name>>,
}

impl Layouts {
    ghost use Rattle.std.specs.Prelude.{◌≡◌, ◌<◌, length, true, ℕ, IfOk};
    ghost use Rattle.abstract_syntax.specs.Classes.{SpecTree};
    ghost use Rattle.graph_cycles.specs.Graphs.{graph_of, leads_to_no_cycle};
    ghost use Rattle.class_index.specs.Lists.{spec_of};
    ghost use Rattle.class_meaning.specs.Classes.{class_graph};
    ghost use Rattle.class_meaning.specs.Ancestors.{ancestor_names};
    ghost use Rattle.class_meaning.specs.Objects.{layout, statics, operation_names};
    ghost use Rattle.ancestor_lines.specs.Lines.{AreLines, IsOf};

    /// Those of each class, by the lists of ancestors.
    pub fn of(alloc: Global, list: &ClassList, lines: &[Vec<usize>]) -> Result<Layouts, OutOfMemory>
        requires lines { AreLines (class_graph (spec_of list.now)) (graph_of lines.now) }
        requires settled { (k : ℕ) → k < length (class_graph (spec_of list.now)) → leads_to_no_cycle (class_graph (spec_of list.now)) k ≡ true }
        ensures { IfOk result (λ layouts. IsOf layouts (spec_of list.now)) }
    {
        let classes = list.all();
        let variables = own_variables(alloc, classes, false)?;
        let operations = own_operations(alloc, classes)?;
        Ok(Layouts {
            names: all_names(alloc, classes, lines)?,
            layouts: all_layouts(alloc, &variables, lines)?,
            statics: own_variables(alloc, classes, true)?,
            operations: all_operations(alloc, &operations, lines)?,
        })
    }

    /// The names of a class's ancestors; none past the last class.
    pub fn ancestors(&self, k: usize) -> &[Name]
        ensures { (spec : SpecTree) → IsOf self.now spec → k < length (class_graph spec) → result.now ≡ ancestor_names spec k }
    {
        names_at(&self.names, k)
    }

    /// The variables of an object of the class, in order.
    pub fn layout(&self, k: usize) -> &[VarRef]
        ensures { (spec : SpecTree) → IsOf self.now spec → k < length (class_graph spec) → result.now ≡ layout spec k }
    {
        variables_at(&self.layouts, k)
    }

    /// The variables of the class object, in order.
    pub fn statics(&self, k: usize) -> &[VarRef]
        ensures { (spec : SpecTree) → IsOf self.now spec → k < length (class_graph spec) → result.now ≡ statics spec k }
    {
        variables_at(&self.statics, k)
    }

    /// The names of the operations of the class's ancestors, each once.
    pub fn operation_names(&self, k: usize) -> &[Name]
        ensures { (spec : SpecTree) → IsOf self.now spec → k < length (class_graph spec) → result.now ≡ operation_names spec k }
    {
        names_at(&self.operations, k)
    }
}
