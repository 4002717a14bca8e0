//! The line of a request with its answer, and the faults by their numbers.
//!
//! A request is one line of words; `examples/driver.py` makes it of a row, and says which words there are.
#![tactic(auto)]

mod faults;
mod line;
mod said;
mod taken;

pub use faults::{run_fault, spec_kind};
pub use line::Line;
