//! What stands behind a pattern, where a tree is built from tokens.
#![tactic(auto)]

mod binds;
mod follow;
mod lists;
mod taken;

pub use follow::follow_pattern;
