//! Which tree a list of tokens is.
#![tactic(auto)]

mod laws;

pub use laws::{
    expressions_are_read, one_pattern, one_tree, patterns_are_read, worked_forms, worked_operators,
};
