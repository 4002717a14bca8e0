//! Builds the trees that tokens are.
#![tactic(auto)]

mod build;
mod ends;
mod follow;
mod settling;
mod steps;

pub use build::{build_expr, build_pattern};
