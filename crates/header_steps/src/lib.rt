//! How forms go on that begin with single tokens.
#![tactic(auto)]

mod entering;
mod names;
mod nodes;
mod words;

pub use words::awaited;
