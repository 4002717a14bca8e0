//! Reads what the definitions of a class are made of: heads, parameters, bodies and lists of names.
#![tactic(auto)]

mod bodies;
mod heads;
mod names;
mod parameters;

pub use bodies::{Unwritten, function_body, missing_body, no_body};
pub use heads::{Head, begins_head, read_head};
pub use names::read_names;
pub use parameters::{named_patterns, parameters_of, result_type};
