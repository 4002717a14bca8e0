//! The desk on which stands what the words of a request make: names, values and slots, deeds and entries, questions and
//! answers.
#![tactic(auto)]

mod answers;
mod deeds;
mod desk;
mod said;
mod threads;
mod values;

pub use desk::Desk;
pub use said::{say_entries, say_made};
pub use threads::thread_by;
pub use values::{MOST_NAMES, made_value, pairs_of};
