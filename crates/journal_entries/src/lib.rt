//! Entries as they are made of a question and its answer, told apart, and found by object or by thread.
#![tactic(auto)]

mod entries_of;
mod laws;
mod made;
mod same;

pub use entries_of::{EntriesOf, of_object, of_thread};
pub use laws::{
    every_entry_gives_back, every_entry_is_made, made_where_fits, threads_are_told_apart,
};
pub use made::entry_made;
pub use same::{same_deed, same_entry, same_question};
