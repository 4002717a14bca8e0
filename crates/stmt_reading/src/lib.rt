//! The statement or the specification that tokens are, read from left to right.
#![tactic(auto)]

mod worked;

pub use worked::{worked_specifications, worked_statements};
