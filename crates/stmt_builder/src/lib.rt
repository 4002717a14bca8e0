//! Builds the statement that tokens are, from left to right.
#![tactic(auto)]

mod build;
mod finished;
mod found;
mod statements;

pub use build::{build_stmt, read_stmt};
