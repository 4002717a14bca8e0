// Functions that are being applied, and class values that are being evaluated.

ghost use Rattle.std.specs.Prelude.{◌≡◌};

use crate::nest::Nest;
use type_tree::TypeExpr;
use vdm_kinds::{Name, Place};
use vdm_tree::FunctionDef;
use vdm_values::Slot;

/// A function that is being applied.
pub struct Applying<'t> {
    /// The class in which it is defined.
    pub class: Name,
    pub function: &'t FunctionDef,
    /// The place of the application.
    pub place: Place,
    /// The tests of types round it.
    pub nest: Nest,
    /// The locals of the node that applies it, which the function does not see.
    pub outer: Vec<(Name, Slot)>,
}

// By hand, so that whoever drops it calls this, and does not prove again the dropping of all that is in it.
impl<'t> Drop for Applying<'t> {
    fn drop(self) {
        let Applying {
            class: _,
            function: _,
            place: _,
            nest: _,
            outer: _,
        } = self;
    }
}

/// A class value that is being evaluated where it is named.
pub struct Naming<'t> {
    /// The class in which it is defined.
    pub class: Name,
    /// Its type, where one is given.
    pub declared: Option<&'t TypeExpr>,
    /// The tests of types round the node that names it.
    pub nest: Nest,
    /// The locals of the node that names it, which it does not see.
    pub outer: Vec<(Name, Slot)>,
}

impl<'t> Drop for Naming<'t> {
    fn drop(self) {
        let Naming {
            class: _,
            declared: _,
            nest: _,
            outer: _,
        } = self;
    }
}

impl<'t> Applying<'t> {
    /// The locals of the node that applies it.
    pub fn into_outer(self) -> Vec<(Name, Slot)>
        ensures { result ≡ self.entry.outer }
    {
        let Applying {
            class: _,
            function: _,
            place: _,
            nest: _,
            outer,
        } = self;
        outer
    }
}

impl<'t> Naming<'t> {
    /// The locals of the node that names it.
    pub fn into_outer(self) -> Vec<(Name, Slot)>
        ensures { result ≡ self.entry.outer }
    {
        let Naming {
            class: _,
            declared: _,
            nest: _,
            outer,
        } = self;
        outer
    }
}
