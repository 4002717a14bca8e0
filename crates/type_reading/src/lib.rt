//! Definitions and laws: the tokens that a type is written with, and which tokens are a type.
#![tactic(auto)]

mod laws;

pub use laws::types_are_read;
