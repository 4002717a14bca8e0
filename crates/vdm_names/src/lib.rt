//! The list of names.
#![tactic(auto)]

mod laws;
mod name_list;

pub use laws::{names_are_found, no_name_twice};
pub use name_list::Names;
