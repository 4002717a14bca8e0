//! Reads the words of a text as tokens: with their names and values.
#![tactic(auto)]

mod characters;
mod escape;
mod laws;
mod token;
mod tokens;
mod whole;

pub use laws::lexemes_are_readable;
pub use tokens::tokens_of;
