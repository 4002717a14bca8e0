//! What the table of the classes refuses: the first refusal in text order.
#![tactic(auto)]

mod classes;
mod first_fault;
mod members;
mod names;
mod seen;
mod table;
mod types;

pub use first_fault::table_fault;
