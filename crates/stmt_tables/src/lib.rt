//! What each word does in statements and classes, where something is wanted.
#![tactic(auto)]

mod calls;
mod classes;
mod definitions;
mod names;
mod parts;
mod statements;
mod table;
mod turn;
mod ways;
mod words;

pub use table::{is_left_out_at, is_optional, turns_of};
pub use turn::Turn;
pub use ways::Ways;
