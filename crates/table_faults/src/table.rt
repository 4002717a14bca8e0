// What is known of a specification before its definitions are gone through.

ghost use Rattle.std.specs.Prelude.{◌≡◌, [], false, get_or, is_some};
ghost use Rattle.std.specs.List.{list_any};

use class_index::ClassList;
use class_meaning::Ask;
use expr_tree::TypeDef;
use found_members::FoundNames;
use type_graphs::TypeNumbers;
use vdm_kinds::Name;

/// The classes of a specification, and what their names and those of their types lead to.
#[derive(Clone, Copy)]
pub(crate) struct Table<'t> {
    pub(crate) list: &'t ClassList,
    /// Of each class itself and its ancestors.
    pub(crate) lines: &'t [Vec<usize>],
    pub(crate) names: &'t FoundNames,
    pub(crate) numbers: &'t TypeNumbers,
    /// Of each class, whether it is its own ancestor.
    pub(crate) class_cycles: &'t [bool],
    /// Of each type, whether it is its own alternative.
    pub(crate) type_cycles: &'t [bool],
}

impl<'t> Table<'t> {
    ghost use Rattle.expr_tree.specs.TypeDefView.{type_def_view};
    ghost use Rattle.graph_cycles.specs.Graphs.{graph_of, is_on_cycle};
    ghost use Rattle.class_meaning.specs.declared.ask.Ask.TheVariants.{AsType};
    ghost use Rattle.class_meaning.specs.Classes.{class_graph};
    ghost use Rattle.class_meaning.specs.Members.{of_type};
    ghost use Rattle.class_meaning.specs.Found.{own_in};
    ghost use Rattle.class_meaning.specs.Faults.{has_type, is_own_alternative};
    ghost use Rattle.table_faults.specs.Tables.{spec_in, Holds};

    /// Whether the class of a number itself has a type of the name.
    fn has_own_type(&self, k: usize, name: Name) -> bool
        requires { Holds self.now }
        ensures { result ≡ is_some (own_in (spec_in self.now) (AsType name) k) }
    {
        match self.list.class(k) {
            Some(_) => self.names.own(k, Ask::AsType(name)).is_some(),
            None => false,
        }
    }

    /// Whether one of these classes has it.
    fn has_type_among(&self, owners: &[usize], name: Name) -> bool
        requires { Holds self.now }
        ensures { result ≡ list_any (λ a. is_some (own_in (spec_in self.now) (AsType name) a)) owners.now }
    {
        for owner in owners {
            if self.has_own_type(*owner, name) {
                return true;
            }
        }
        false
    }

    /// Whether one of the classes in a line has it.
    fn has_type_in_line(&self, k: usize, name: Name) -> bool
        requires { Holds self.now }
        ensures { result ≡ list_any (λ a. is_some (own_in (spec_in self.now) (AsType name) a)) (get_or (graph_of self.now.lines.now) k []) }
    {
        match self.lines.get(k) {
            Some(line) => self.has_type_among(line, name),
            None => false,
        }
    }

    /// Whether an ancestor of the class of a number has a type of the name.
    pub(crate) fn has_type(&self, k: usize, name: Name) -> bool
        requires { Holds self.now }
        ensures { result ≡ has_type (spec_in self.now) name k }
    {
        self.has_type_in_line(k, name)
    }

    /// Whether the class of a number is its own ancestor.
    pub(crate) fn is_own_ancestor(&self, k: usize) -> bool
        requires { Holds self.now }
        ensures { result ≡ is_on_cycle (class_graph (spec_in self.now)) k }
    {
        flag_at(self.class_cycles, k)
    }

    /// Whether a type is its own alternative.
    pub(crate) fn is_own_alternative(&self, definition: &TypeDef) -> bool
        requires { Holds self.now }
        ensures { result ≡ is_own_alternative (spec_in self.now) (of_type (type_def_view definition.now)) }
    {
        match self.numbers.number(definition.class, definition.name) {
            Some(number) => flag_at(self.type_cycles, number),
            None => false,
        }
    }
}

/// The flag of a number; past the end none is set.
fn flag_at(flags: &[bool], k: usize) -> bool
    ensures { result ≡ get_or flags.now k false }
{
    match flags.get(k) {
        Some(flag) => *flag,
        None => false,
    }
}
