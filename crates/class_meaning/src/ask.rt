// How a member of a class is asked for, and what a member is.

use vdm_kinds::Name;

/// What is asked of a class.
#[derive(Clone, Copy, Debug, PartialEq, Eq)]
pub enum Ask {
    /// By its name, where a type is wanted.
    AsType(Name),
    /// By its name alone, where an expression is wanted.
    ByName(Name),
    /// With so many arguments.
    Called(Name, usize),
}

/// What a member of a class is.
#[derive(Clone, Copy, Debug, PartialEq, Eq)]
pub enum MemberKind {
    TypeDef,
    Value,
    Variable,
    Function,
    Operation,
}
