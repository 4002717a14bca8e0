// What is found of a name in a class.

use vdm_kinds::{OpRef, VarRef};

/// The class, by its number, whose definition a name means.
#[derive(Clone, Copy, Debug, PartialEq, Eq)]
pub enum Found {
    Nothing,
    One(usize),
    /// Superclasses don't agree.
    Several,
}

/// An operation or a function that is found.
#[derive(Clone, Copy, Debug, PartialEq, Eq)]
pub enum OpFound {
    One(OpRef),
    /// Superclasses don't agree.
    Several,
    None,
}

/// A variable or a class value that is found.
#[derive(Clone, Copy, Debug, PartialEq, Eq)]
pub enum VarFound {
    One(VarRef),
    /// Superclasses don't agree.
    Several,
    None,
}
