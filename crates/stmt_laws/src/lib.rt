//! Laws of what tokens are read as.
#![tactic(auto)]

mod laws;

pub use laws::{leaves_are_read, one_statement, statements_are_read, what_is_read_is_a_statement};
