//! Builds the specification that tokens are.
#![tactic(auto)]

mod blocks;
mod classes;
mod specs;

pub use specs::build_spec;
