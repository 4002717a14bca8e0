// What an expression needs from outside of it.

use vdm_kinds::{Name, OpRef, Place, VarRef};
use vdm_values::ValueList;

/// What an expression needs from outside of it.
#[derive(Drop)]
pub enum Need {
    /// What a variable of an object holds.
    Read(u32, VarRef),
    /// The result of an operation, called on an object of a class with these arguments, each at its place.
    Call {
        object: u32,
        class: Name,
        op: OpRef,
        args: ValueList,
        places: Vec<Place>,
    },
    /// A new object of a class, made with these arguments of its constructor, each at its place.
    New {
        class: Name,
        args: ValueList,
        places: Vec<Place>,
    },
    /// That these values are printed, one after another.
    Print(ValueList),
    /// The time.
    Time,
}
