// The ancestors of classes, and how objects are laid out.

ghost use Rattle.std.specs.Prelude.{◌≡◌, ◌<◌, ℕ, [], None, Some, length};
ghost use Rattle.std.specs.List.{list_any};
ghost use Rattle.abstract_syntax.specs.Classes.{is_same_name};
ghost use Rattle.class_meaning.specs.Classes.{class_graph, class_number};
ghost use Rattle.class_meaning.specs.Ancestors.{ancestor_names};
ghost use Rattle.class_meaning.specs.Objects.{layout, statics, operation_names};
ghost use Rattle.spec_table.specs.Members.{descends_from};
ghost use Rattle.spec_table.specs.Tables.{table_spec};

use crate::table::ClassTable;
use vdm_kinds::{Name, VarRef};

impl ClassTable {
    /// The names of a class's ancestors, its own first. None where there is no such class.
    #[tactic(auto, using(crate::proofs::Numbering::number_in_graph))]
    pub fn ancestors(&self, class: Name) -> &[Name]
        ensures some { (k : ℕ) → class_number (table_spec self.now) class ≡ Some k → result.now ≡ ancestor_names (table_spec self.now) k }
        ensures none { class_number (table_spec self.now) class ≡ None → result.now ≡ [] }
    {
        match self.list.number(class) {
            Some(k) => self.ancestor_line(k),
            None => &[],
        }
    }

    /// The variables of an object of a class, in order. None where there is no such class.
    #[tactic(auto, using(crate::proofs::Numbering::number_in_graph))]
    pub fn layout(&self, class: Name) -> &[VarRef]
        ensures some { (k : ℕ) → class_number (table_spec self.now) class ≡ Some k → result.now ≡ layout (table_spec self.now) k }
        ensures none { class_number (table_spec self.now) class ≡ None → result.now ≡ [] }
    {
        match self.list.number(class) {
            Some(k) => self.layout_line(k),
            None => &[],
        }
    }

    /// The variables of a class object, in order. None where there is no such class.
    #[tactic(auto, using(crate::proofs::Numbering::number_in_graph))]
    pub fn statics(&self, class: Name) -> &[VarRef]
        ensures some { (k : ℕ) → class_number (table_spec self.now) class ≡ Some k → result.now ≡ statics (table_spec self.now) k }
        ensures none { class_number (table_spec self.now) class ≡ None → result.now ≡ [] }
    {
        match self.list.number(class) {
            Some(k) => self.static_line(k),
            None => &[],
        }
    }

    /// The names of the operations of a class's ancestors, each once. None where there is no such class.
    #[tactic(auto, using(crate::proofs::Numbering::number_in_graph))]
    pub fn op_names(&self, class: Name) -> &[Name]
        ensures some { (k : ℕ) → class_number (table_spec self.now) class ≡ Some k → result.now ≡ operation_names (table_spec self.now) k }
        ensures none { class_number (table_spec self.now) class ≡ None → result.now ≡ [] }
    {
        match self.list.number(class) {
            Some(k) => self.operation_line(k),
            None => &[],
        }
    }

    /// Whether the second class is the first one or one of its ancestors.
    pub(crate) fn descends(&self, class: Name, ancestor: Name) -> bool
        ensures { result ≡ descends_from (table_spec self.now) class ancestor }
    {
        match self.list.number(ancestor) {
            Some(_) => self.is_in_line(class, ancestor),
            None => false,
        }
    }

    fn is_in_line(&self, class: Name, ancestor: Name) -> bool
        ensures { (a : ℕ) → class_number (table_spec self.now) ancestor ≡ Some a → result ≡ descends_from (table_spec self.now) class ancestor }
    {
        has_name(self.ancestors(class), ancestor)
    }

    fn ancestor_line(&self, k: usize) -> &[Name]
        ensures { k < length (class_graph (table_spec self.now)) → result.now ≡ ancestor_names (table_spec self.now) k }
    {
        self.layouts.ancestors(k)
    }

    fn layout_line(&self, k: usize) -> &[VarRef]
        ensures { k < length (class_graph (table_spec self.now)) → result.now ≡ layout (table_spec self.now) k }
    {
        self.layouts.layout(k)
    }

    fn static_line(&self, k: usize) -> &[VarRef]
        ensures { k < length (class_graph (table_spec self.now)) → result.now ≡ statics (table_spec self.now) k }
    {
        self.layouts.statics(k)
    }

    fn operation_line(&self, k: usize) -> &[Name]
        ensures { k < length (class_graph (table_spec self.now)) → result.now ≡ operation_names (table_spec self.now) k }
    {
        self.layouts.operation_names(k)
    }
}

fn has_name(names: &[Name], name: Name) -> bool
    ensures { result ≡ list_any (is_same_name name) names.now }
{
    for other in names {
        if name.0 == other.0 {
            return true;
        }
    }
    false
}
