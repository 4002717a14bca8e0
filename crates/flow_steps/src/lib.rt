//! What is done with what came of the parts of statements.
#![tactic(auto)]

mod branches;
mod following;
mod leaving;

pub use branches::branch_decided;
pub use following::{back, called, cut, return_value, sequence, unless_ended};
pub use leaving::{at_last, exit_with, unless_replaced};
