//! What rows say behind a tree, and in place of one.
#![tactic(auto)]

mod said;

pub use said::{say_behind, say_halt, say_own_names};
