// What comes next in a type.

use crate::frame::Collection;
use type_tree::TypeExpr;
use vdm_kinds::{Name, Place};

/// What comes next.
#[derive(Drop)]
pub enum Mode {
    /// A single type is wanted.
    Wants,
    /// A single type was read.
    Has(TypeExpr),
    /// `set`, `seq` or `seq1` was read, and `of` is wanted.
    WantsOf(Collection, Place),
    /// A name was read: a type, or a class before a backquote.
    Named(Name, Place),
    /// The name of a class and a backquote were read.
    Qualified(Name, Place),
}
