//! All bindings of a pattern with a value, one after the other: slow, and as the rules say. Tests compare the quick search with it.
#![tactic(auto)]

mod all_bindings;
mod literals;
mod parts;
mod records;
mod ways;

pub use all_bindings::bindings;
