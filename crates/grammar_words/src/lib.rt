//! The words that the grammar of the whole language is made of.
#![tactic(auto)]

mod word;

pub use word::{PlacedWord, Word};
