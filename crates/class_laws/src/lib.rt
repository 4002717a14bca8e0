//! Laws of what tokens are read as a specification.
#![tactic(auto)]

mod laws;

pub use laws::{one_specification, specifications_are_read, what_is_read_is_a_specification};
