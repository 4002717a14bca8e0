//! Reads the specification of a text.
#![tactic(auto)]

mod specs;

pub use specs::spec_of_tokens;
