//! The variables that stand with `~` in a condition: a walk over a tree, with what is still to come in a list.
#![tactic(auto)]

mod collections;
mod far_forms;
mod firsts;
mod olds;
mod operands;
mod part;
mod parts;
mod patterns;
mod visit;
mod walk;

pub use olds::old_names;
