//! Reads how far words are the beginning of a type, a pattern or an expression.
#![tactic(auto)]

mod open_nodes;
mod reader;
mod reading;
mod wanted_stack;

pub use reader::front_of;
pub use wanted_stack::{Met, WantedStack};
