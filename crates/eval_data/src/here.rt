// Where a node stands.

use crate::nest::Nest;
use vdm_kinds::{Name, VarRef};
use vdm_values::Slot;

/// What a predicate or an instance invariant holds: the variables of its object.
#[derive(Drop)]
pub struct Held {
    pub variables: Vec<(VarRef, Slot)>,
}

/// Where a node stands: what stays the same from one node of a body to the next.
#[derive(Clone, Copy)]
pub struct Here<'t> {
    /// The class in which it stands.
    pub scope: Option<Name>,
    /// The class of the object.
    pub own: Option<Name>,
    /// The number of the object.
    pub me: Option<u32>,
    /// What is held, in a predicate or an instance invariant.
    pub held: Option<&'t Held>,
    /// The tests of types round it.
    pub nest: Nest,
}
