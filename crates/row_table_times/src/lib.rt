//! Answers of rows on how long the table of the classes takes, and what is looked up in it.
#![tactic(auto)]

mod texts;
mod times;

pub use times::answer_time;
