//! The texts of values, of slots and of names, and what is printed of values.
#![tactic(auto)]

mod name;
mod piece;
mod pieces;
mod printed;
mod quoted;
mod slot;
mod string;
mod value;

pub use name::name_text;
pub use piece::Piece;
pub use printed::printed_text;
pub use slot::{push_slot, slot_text};
pub use string::push_string;
pub use value::{push_value, push_values, text};
