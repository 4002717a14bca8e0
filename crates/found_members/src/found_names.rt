// What names mean in each class.

ghost use Rattle.std.specs.Prelude.{◌≡◌, ℕ, Some, IfOk, map};
ghost use Rattle.abstract_syntax.specs.Classes.{SpecTree, ClassTree};
ghost use Rattle.graph_cycles.specs.Graphs.{graph_of};
ghost use Rattle.vdm_tree.specs.ClassView.{class_view};
ghost use Rattle.found_members.specs.Rows.{HaveIndexes};

use crate::following::{follow, own_answer};
use crate::heirs::rows_of;
use crate::inherited::{Inherited, is_placed};
use class_index::{ClassList, MemberAt, OwnMembers};
use class_meaning::{Ask, Found};
use std::alloc::Global;
use vdm_kinds::OutOfMemory;
use vdm_tree::ClassDef;

/// The index of each class.
fn indexes(alloc: Global, classes: &[ClassDef]) -> Result<Vec<OwnMembers>, OutOfMemory>
    ensures { IfOk result (λ own. HaveIndexes own.items (map class_view classes.now)) }
{
    let mut own = Vec::new(alloc);
    for class in classes {
        own.push(OwnMembers::of(alloc, class)?)?;
    }
    Ok(own)
}

/// What names mean in each class of a specification. Of a class with one superclass nothing is copied: what it does not have itself
/// is looked for there.
pub struct FoundNames {
    own: Vec<OwnMembers>,
    rows: Vec<Inherited>,
}

// A derived drop would be proved again in each crate that drops such a table.
impl Drop for FoundNames {
    fn drop(self) {
        let FoundNames { own: _, rows: _ } = self;
    }
}

impl FoundNames {
    ghost use Rattle.class_index.specs.Lists.{spec_of};
    ghost use Rattle.class_index.specs.Answers.{IsAnswer};
    ghost use Rattle.class_meaning.specs.Classes.{class_at, class_graph};
    ghost use Rattle.class_meaning.specs.Found.{found};
    ghost use Rattle.found_members.specs.Resolved.{Resolves};

    /// What names mean in the classes of a list, whose graph is given. In a class above which classes go in a circle nothing is found.
    pub fn of(
        alloc: Global,
        list: &ClassList,
        graph: &[Vec<usize>],
    ) -> Result<FoundNames, OutOfMemory>
        requires { graph_of graph.now ≡ class_graph (spec_of list.now) }
        ensures { IfOk result (λ names. Resolves names (spec_of list.now)) }
    {
        let classes = list.all();
        let own = indexes(alloc, classes)?;
        let nodes = graph_cycles::order(alloc, graph)?;
        let rows = rows_of(alloc, classes, &own, graph, &nodes)?;
        Ok(FoundNames { own, rows })
    }

    /// What the class of a number itself has; nothing past the last class.
    pub fn own(&self, k: usize, ask: Ask) -> Option<MemberAt>
        ensures { (spec : SpecTree) (class : ClassTree) → Resolves self.now spec → class_at spec k ≡ Some class → IsAnswer class ask result }
    {
        own_answer(&self.own, k, ask)
    }

    /// The class whose definition a name means in the class of a number.
    pub fn found(&self, k: usize, ask: Ask) -> Found
        ensures { (spec : SpecTree) → Resolves self.now spec → result ≡ found spec ask k }
    {
        if is_placed(&self.rows, k) {
            follow(&self.own, &self.rows, k, ask)
        } else {
            Found::Nothing
        }
    }
}
