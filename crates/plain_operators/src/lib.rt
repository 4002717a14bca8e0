//! What the strict operators give once more, by scans and by insertion: slow, and written from the table of the language
//! alone. Rows compare the quick operators with it; nothing else stands on it.
#![tactic(auto)]

mod application;
mod insertion;
mod maps;
mod numbers;
mod room;
mod sequences;
mod sets;
mod sets_of_sets;

pub use application::{binary, part, unary};
pub use insertion::rising_by_insertion;
pub use room::Room;
