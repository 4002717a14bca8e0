//! Builds the type that tokens are.
#![tactic(auto)]

mod build;
mod ends;
mod frame;
mod mode;
mod nodes;
mod stack;
mod steps;

pub use build::build_type;
