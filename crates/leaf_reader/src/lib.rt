//! Reads what tokens begin with: single words and names, and whole expressions, patterns and types.
#![tactic(auto)]

mod brackets;
mod closers;
mod front;
mod leaves;
mod names;
mod no_tree;
mod source;
mod words;

pub use no_tree::{NO_TREE, NoTree};
pub use source::Source;
pub use words::{is_word, word_of};
