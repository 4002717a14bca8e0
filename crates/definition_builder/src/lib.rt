//! Reads the definitions of a class.
#![tactic(auto)]

mod functions;
mod items;
mod operations;
mod sync;
mod threads;
mod types;
mod values;
mod variables;

pub use items::{Item, read_items};
pub use threads::read_thread;
