//! What each word does where something is wanted.
#![tactic(auto)]

mod binds;
mod brackets;
mod operands;
mod patterns;
mod pulls;
mod table;
mod turn;
mod types;
mod words;

pub use table::{is_left_out_at, is_optional, turn_of};
pub use turn::Turn;
