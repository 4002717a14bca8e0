//! Lanes that note at locks which they take in turns, and a count that two threads raise.
#![tactic(auto)]

mod lane;
mod log;
mod row;
mod tally;

pub use log::Log;
pub use row::Row;
pub use tally::count_by_two;
