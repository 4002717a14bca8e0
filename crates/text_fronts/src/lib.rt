//! What is read of the front of a text: its tokens, and the fault behind it.
#![tactic(auto)]

mod front;
mod pieces;

pub use front::{FrontRead, fault_before, read_front};
pub use pieces::behind;
