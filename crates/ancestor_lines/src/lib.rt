//! The ancestors of classes, and how objects are laid out.
#![tactic(auto)]

mod flags;
mod gathered;
mod layouts;
mod name_set;
mod nodes;
mod own;
mod walks;

pub use layouts::Layouts;
pub use walks::lines;
