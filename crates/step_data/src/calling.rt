// A call of an operation.

ghost use Rattle.std.specs.Prelude.{◌≡◌, None};

use expr_tree::Expr;
use std::mem;
use vdm_kinds::{Name, OpRef, Place, VarRef};
use vdm_tree::OpDef;
use vdm_values::{Value, ValueList};

/// A variable that stands with `~` in `post`: its name there, and the object on which it is read.
#[derive(Clone, Copy)]
pub struct Old {
    pub name: Name,
    pub object: u32,
    pub var: VarRef,
}

/// A call of an operation, from its request to its finish.
pub struct Calling<'t> {
    /// The number of the object on which it runs.
    pub me: u32,
    /// The class of the object.
    pub own: Name,
    pub op: OpRef,
    pub operation: &'t OpDef,
    pub arguments: ValueList,
    /// Where a fault of the call stands.
    pub place: Place,
    /// Of a constructor the new object, which the call gives.
    pub gives: Option<Value>,
    /// The variables that stand with `~` in `post`, in the order in which they are read.
    pub olds: Vec<Old>,
}

// By hand, so that whoever drops it calls this, and does not prove again the dropping of all that is in it.
impl<'t> Drop for Calling<'t> {
    fn drop(self) {
        let Calling {
            me: _,
            own: _,
            op: _,
            operation: _,
            arguments: _,
            place: _,
            gives: _,
            olds: _,
        } = self;
    }
}

impl<'t> Calling<'t> {
    /// Takes out the object that the call gives.
    pub fn take_gives(&mut self) -> Option<Value>
        ensures taken { result ≡ self.old.gives }
        ensures left { self.new ≡ record self.old { gives = None } }
    {
        mem::replace(&mut self.gives, None)
    }

    /// Puts in what is read before the body.
    pub fn set_olds(&mut self, olds: Vec<Old>)
        ensures { self.new ≡ record self.old { olds = olds } }
    {
        self.olds = olds;
    }
}

/// A call that is still to be asked for, once each of its arguments was tested at its place.
pub struct Requesting<'t> {
    pub call: Box<Calling<'t>>,
    pub places: Vec<Place>,
}

impl<'t> Drop for Requesting<'t> {
    fn drop(self) {
        let Requesting { call: _, places: _ } = self;
    }
}

impl<'t> Requesting<'t> {
    /// The call.
    pub fn into_call(self) -> Box<Calling<'t>>
        ensures { result ≡ self.entry.call }
    {
        let Requesting {
            call,
            places: _places,
        } = self;
        call
    }
}

/// A call before its parameters meet the arguments: the expressions in brackets in their patterns, of which one is being evaluated, and
/// the values of those before it.
pub struct Binding<'t> {
    pub call: Box<Calling<'t>>,
    pub found: Vec<&'t Box<Expr>>,
    /// The number of the one behind that.
    pub next: usize,
    pub given: Vec<Value>,
}

impl<'t> Drop for Binding<'t> {
    fn drop(self) {
        let Binding {
            call: _,
            found: _,
            next: _,
            given: _,
        } = self;
    }
}

impl<'t> Binding<'t> {
    /// The call, and the values that were given.
    pub fn into_parts(self) -> (Box<Calling<'t>>, Vec<Value>)
        ensures { result ≡ (self.entry.call, self.entry.given) }
    {
        let Binding {
            call,
            found: _found,
            next: _,
            given,
        } = self;
        (call, given)
    }
}
