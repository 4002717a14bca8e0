//! Maps from names to values that share what they have in common.
#![tactic(auto)]

#[cfg(test)]
mod scopes;
mod shared_map;
mod tree;

pub use shared_map::SharedMap;
