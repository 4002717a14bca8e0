// The classes of a specification by their numbers.

ghost use Rattle.std.specs.Prelude.{◌≡◌, true, map};
ghost use Rattle.vdm_tree.specs.ClassView.{class_view};
ghost use Rattle.class_index.specs.Io.{begins_with_io};
ghost use Rattle.class_index.specs.Numbers.{FindsNumbers, FindsNumbers-prop};

use crate::io::io_class;
use crate::numbers::numbers_of;
use std::alloc::Global;
use std::collections::HashMap;
use vdm_kinds::{Name, OutOfMemory};
use vdm_tree::{ClassDef, Spec};

/// The classes of a specification: `IO`, and then those of the text.
pub struct ClassList {
    classes: Vec<ClassDef>,
    numbers: HashMap<u32, usize>,
    ghost begins: { begins_with_io (map class_view classes.items) ≡ true },
    ghost finds: { FindsNumbers numbers (map class_view classes.items) } by { FindsNumbers-prop numbers (map class_view classes.items) },
}

// A derived drop would be proved again in each crate that drops a list.
impl Drop for ClassList {
    fn drop(self) {
        let ClassList {
            classes: _,
            numbers: _,
        } = self;
    }
}

impl ClassList {
    ghost use Rattle.std.specs.Prelude.{option_map, length, IfOk};
    ghost use Rattle.vdm_tree.specs.ClassView.{spec_view};
    ghost use Rattle.class_meaning.specs.Classes.{classes as classes_of, class_at, class_number};
    ghost use Rattle.class_index.specs.Lists.{spec_of};

    /// `IO` and the classes of a specification.
    pub fn of(alloc: Global, spec: Spec) -> Result<ClassList, OutOfMemory>
        ensures { IfOk result (λ list. spec_of list ≡ spec_view spec) }
    {
        let Spec { mut classes } = spec;
        classes.insert(0, io_class(alloc)?)?;
        let numbers = numbers_of(alloc, &classes)?;
        Ok(ClassList { classes, numbers })
    }

    /// How many classes there are, `IO` among them.
    pub fn len(&self) -> usize
        ensures { result ≡ length (classes_of (spec_of self.now)) }
    {
        self.classes.len()
    }

    /// All classes, by their numbers.
    pub fn all(&self) -> &[ClassDef]
        ensures { map class_view result.now ≡ classes_of (spec_of self.now) }
    {
        self.classes.as_slice()
    }

    /// The classes of the text, in order: all but `IO`.
    pub fn text_classes(&self) -> &[ClassDef]
        ensures { map class_view result.now ≡ (spec_of self.now).classes }
    {
        match self.classes.as_slice() {
            [_, classes @ ..] => classes,
            [] => &[],
        }
    }

    /// The class of a number.
    pub fn class(&self, k: usize) -> Option<&ClassDef>
        ensures { option_map (λ c. class_view c.now) result ≡ class_at (spec_of self.now) k }
    {
        self.classes.as_slice().get(k)
    }

    /// The number of the first class of a name.
    pub fn number(&self, name: Name) -> Option<usize>
        ensures { result ≡ class_number (spec_of self.now) name }
    {
        self.numbers.get(&name.0).copied()
    }
}
