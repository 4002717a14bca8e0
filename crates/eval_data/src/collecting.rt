// Values that come one after another, and what is done with all of them.

ghost use Rattle.std.specs.Prelude.{◌≡◌};

use crate::applying::Applying;
use crate::asking::Asking;
use crate::chooser::Chooser;
use crate::class_test::ClassTest;
use crate::here::Here;
use crate::matching::Met;
use crate::parts::Parts;
use crate::search::Search;
use crate::strict::Strict;
use crate::wanted::Wanted;
use expr_tree::{Expr, FieldValue, Pattern, TypeInvariant};
use vdm_kinds::{Name, OpRef, Place, TypeName};
use vdm_values::{Value, ValueList};

/// What is done with values.
#[derive(Drop)]
pub enum Then<'t> {
    /// This is made of them.
    Make(Strict),
    /// A test of their classes.
    Classes(ClassTest),
    /// They stand in brackets in a pattern that meets a value.
    Meets(Value, Met<'t>),
    /// They stand in brackets in the patterns of a search, behind its sets.
    Searches(Vec<ValueList>, Vec<&'t Pattern>, Chooser<'t>),
    /// They are what the search collected; it goes on with its next choice.
    NextChoice(Box<Search<'t>>),
    /// They are the arguments of a function, which stand here.
    Applies(OpRef, &'t Vec<Expr>),
    /// They stand in brackets in the patterns of a function's parameters, which meet the arguments.
    Binds(Box<Applying<'t>>, ValueList),
    /// They are the fields of a record of this type.
    Record(TypeName),
    /// They are a record, and the new values of these fields of it.
    Changes(&'t [FieldValue]),
    /// They are the arguments, which stand here, of a call of the operation on the object of this number and class.
    Calls(u32, Name, OpRef, &'t Vec<Expr>, Wanted),
    /// They are the arguments of a call that there is not.
    NoSuchCall,
    /// They are the arguments of the constructor of a new object of the class, which stand here.
    Creates(Name, &'t Vec<Expr>),
    /// They stand in brackets in the pattern of an invariant that meets a value.
    Invariant(Box<Asking<'t>>, &'t TypeInvariant, Value),
}

/// Values that came, expressions of which further ones come, and what is done with all of them.
pub struct Collecting<'t> {
    pub here: Here<'t>,
    pub place: Place,
    pub rest: Parts<'t>,
    pub done: Vec<Value>,
    pub then: Then<'t>,
}

// By hand, so that whoever drops it calls this, and does not prove again the dropping of all that is in it.
impl<'t> Drop for Collecting<'t> {
    fn drop(self) {
        let Collecting {
            here: _,
            place: _,
            rest: _,
            done: _,
            then: _,
        } = self;
    }
}

impl<'t> Collecting<'t> {
    /// Takes it apart.
    pub fn into_parts(self) -> (Here<'t>, Place, Parts<'t>, Vec<Value>, Then<'t>)
        ensures { result ≡ (self.entry.here, self.entry.place, self.entry.rest, self.entry.done, self.entry.then) }
    {
        let Collecting {
            here,
            place,
            rest,
            done,
            then,
        } = self;
        (here, place, rest, done, then)
    }
}
