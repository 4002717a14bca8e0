// A new object that is being made.

ghost use Rattle.std.specs.Prelude.{◌≡◌};

use std::mem;
use vdm_kinds::{Name, Place, VarRef};
use vdm_values::{Slot, ValueList};

/// What a new object is made of.
pub struct Creating {
    pub class: Name,
    /// The arguments for its constructor, each at its place.
    pub arguments: ValueList,
    pub places: Vec<Place>,
    /// Where a fault of its making stands.
    pub place: Place,
}

// By hand, so that whoever drops it calls this, and does not prove again the dropping of all that is in it.
impl Drop for Creating {
    fn drop(self) {
        let Creating {
            class: _,
            arguments: _,
            places: _,
            place: _,
        } = self;
    }
}

impl Creating {
    /// The arguments, and their places.
    pub fn into_arguments(self) -> (ValueList, Vec<Place>)
        ensures { result ≡ (self.arguments, self.places) }
    {
        let Creating {
            class: _,
            arguments,
            places,
            place: _,
        } = self;
        (arguments, places)
    }
}

/// A new object whose initialisers are being evaluated, or whose slots are being tested: the slots of its first variables, and the
/// locals of the node that makes it, while these are put aside.
pub struct Making<'t> {
    pub object: Box<Creating>,
    pub variables: &'t [VarRef],
    /// The variables that have no slot and are not being evaluated.
    pub left: &'t [VarRef],
    pub slots: Vec<Slot>,
    pub saved: Vec<(Name, Slot)>,
}

impl<'t> Drop for Making<'t> {
    fn drop(self) {
        let Making {
            object: _,
            variables: _,
            left: _,
            slots: _,
            saved: _,
        } = self;
    }
}

impl<'t> Making<'t> {
    /// What it is made of, and its slots.
    pub fn into_parts(self) -> (Box<Creating>, Vec<Slot>)
        ensures { result ≡ (self.entry.object, self.entry.slots) }
    {
        let Making {
            object,
            variables: _,
            left: _,
            slots,
            saved: _saved,
        } = self;
        (object, slots)
    }
}
