// The classes, in text order.

ghost use Rattle.std.specs.Prelude.{◌≡◌, IfOk, OnOk};
ghost use Rattle.vdm_tree.specs.ClassView.{class_view};
ghost use Rattle.class_meaning.specs.Classes.{classes};
ghost use Rattle.table_faults.specs.Firsts.{superclasses_fault, class_fault, classes_fault, no_names, with_name};
ghost use Rattle.table_faults.specs.Known.{known_names};
ghost use Rattle.table_faults.specs.Tables.{spec_in, Holds};

use crate::names::{note, refusal};
use crate::table::Table;
use std::alloc::Global;
use std::collections::HashSet;
use vdm_kinds::{NameAt, OutOfMemory, SpecFault, SpecKind};
use vdm_tree::ClassDef;

impl<'t> Table<'t> {
    /// The first superclass that is no class.
    fn superclasses_fault(&self, superclasses: &[NameAt]) -> Option<SpecFault>
        requires { Holds self.now }
        ensures { result ≡ superclasses_fault (spec_in self.now) superclasses.now }
    {
        for superclass in superclasses {
            if self.list.number(superclass.name).is_none() {
                return Some(refusal(SpecKind::UnknownName, superclass.place));
            }
        }
        None
    }

    /// The first refusal of the class of a number, behind those of the names so far.
    fn class_fault(
        &self,
        alloc: Global,
        earlier: &mut HashSet<u32>,
        k: usize,
        class: &ClassDef,
    ) -> Result<Option<SpecFault>, OutOfMemory>
        requires { Holds self.now }
        ensures fault { IfOk result (λ fault. fault ≡ class_fault (spec_in self.now) (known_names earlier.old) k (class_view class.now)) }
        ensures noted { OnOk result (known_names earlier.new ≡ with_name (known_names earlier.old) class.now.name) }
    {
        if note(earlier, class.name)? {
            return Ok(Some(refusal(SpecKind::Duplicate, class.name_place)));
        }
        if self.is_own_ancestor(k) {
            return Ok(Some(refusal(SpecKind::Cycle, class.name_place)));
        }
        if let Some(fault) = self.superclasses_fault(&class.superclasses) {
            return Ok(Some(fault));
        }
        self.members_fault(alloc, k, &class.blocks)
    }

    /// The first refusal of all classes.
    pub(crate) fn classes_fault(&self, alloc: Global) -> Result<Option<SpecFault>, OutOfMemory>
        requires { Holds self.now }
        ensures { IfOk result (λ fault. fault ≡ classes_fault (spec_in self.now) no_names 0 (classes (spec_in self.now))) }
    {
        let mut earlier = HashSet::new(alloc);
        let definitions = self.list.all();
        for k in 0..definitions.len() {
            if let Some(fault) = self.class_fault(alloc, &mut earlier, k, &definitions[k])? {
                return Ok(Some(fault));
            }
        }
        Ok(None)
    }
}
