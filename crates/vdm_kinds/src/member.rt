// The members of classes, by the names of class and member.

use crate::name::Name;

/// An operation or function: the class that defines it, its name, and how many parameters it has.
#[derive(Clone, Copy, Debug, PartialEq, Eq)]
pub struct OpRef {
    pub class: Name,
    pub name: Name,
    pub arity: u32,
}

/// A variable or class value: the class that defines it, and its name.
#[derive(Clone, Copy, Debug, PartialEq, Eq)]
pub struct VarRef {
    pub class: Name,
    pub name: Name,
}
