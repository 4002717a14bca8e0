//! What tokens of a type do, where a tree is built from tokens.
#![tactic(auto)]

mod ends;
mod types;

pub use types::type_on;
