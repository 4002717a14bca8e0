// The table of the classes.

ghost use Rattle.std.specs.Prelude.{◌≡◌, None};
ghost use Rattle.class_index.specs.Lists.{spec_of};
ghost use Rattle.ancestor_lines.specs.Lines.{IsOf};
ghost use Rattle.found_members.specs.Resolved.{Resolves};
ghost use Rattle.class_meaning.specs.Classes.{class_names as names_of_classes};
ghost use Rattle.class_meaning.specs.Faults.{table_fault as first_of_faults};
ghost use Rattle.member_meaning.specs.TypeRanks.{types_stand as all_types_stand};
ghost use Rattle.spec_table.specs.NoFault.{NoFault-prop};

use ancestor_lines::Layouts;
use class_index::ClassList;
use found_members::FoundNames;
use vdm_kinds::{Name, OpRef};
use vdm_tree::ClassDef;

/// The classes of a specification of which nothing is refused.
pub struct ClassTable {
    pub(crate) list: ClassList,
    pub(crate) layouts: Layouts,
    pub(crate) names: FoundNames,
    pub(crate) class_names: Vec<Name>,
    // Whether each type says in which class it stands: by one that doesn't no name is looked up.
    pub(crate) types_stand: bool,
    // A handful, which are searched.
    pub(crate) hosts: Vec<OpRef>,
    ghost lays_out: { ∥ IsOf layouts (spec_of list) ∥₁ },
    ghost resolves: { ∥ Resolves names (spec_of list) ∥₁ },
    ghost named: { class_names.items ≡ names_of_classes (spec_of list) },
    ghost typed: { types_stand ≡ all_types_stand (spec_of list) },
    ghost fine: { first_of_faults (spec_of list) ≡ None } by { NoFault-prop (spec_of list) },
}

// A derived drop would be proved again in each crate that drops a table.
impl Drop for ClassTable {
    fn drop(self) {
        let ClassTable {
            list: _,
            layouts: _,
            names: _,
            class_names: _,
            types_stand: _,
            hosts: _,
        } = self;
    }
}

impl ClassTable {
    ghost use Rattle.std.specs.Prelude.{ℕ, Some, IsSome, map};
    ghost use Rattle.vdm_tree.specs.ClassView.{class_view};
    ghost use Rattle.class_meaning.specs.Classes.{class_at, class_number};
    ghost use Rattle.spec_table.specs.Tables.{table_spec};

    /// The names of all classes, by their numbers: `IO` first.
    pub fn classes(&self) -> &[Name]
        ensures { result.now ≡ names_of_classes (table_spec self.now) }
    {
        self.class_names.as_slice()
    }

    /// The specification whose table it is: the classes of its text in order, as they were read.
    pub fn text_classes(&self) -> &[ClassDef]
        ensures { map class_view result.now ≡ (table_spec self.now).classes }
    {
        self.list.text_classes()
    }

    /// The number of the class of a name, which is that of its class object. None where there is no such class.
    pub fn number(&self, class: Name) -> Option<usize>
        ensures { result ≡ class_number (table_spec self.now) class }
    {
        self.list.number(class)
    }

    /// The class of a name, as it was read.
    #[tactic(auto, using(crate::proofs::Numbering::class_of_number))]
    pub fn class(&self, name: Name) -> &ClassDef
        requires { IsSome (class_number (table_spec self.now) name) }
        ensures { (k : ℕ) → class_number (table_spec self.now) name ≡ Some k → class_at (table_spec self.now) k ≡ Some (class_view result.now) }
    {
        let number = self.list.number(name).unwrap();
        self.list.class(number).unwrap()
    }
}
