//! Reads how far tokens are the beginning of a statement or a specification, in all ways at once.
#![tactic(auto)]

mod alive;
mod endings;
mod item;
mod names;
mod open_nodes;
mod open_parts;
mod reader;
mod reading;
mod readings;
mod spares;
mod wanted_stack;

pub use reader::{front_of_tokens, front_of_words};
