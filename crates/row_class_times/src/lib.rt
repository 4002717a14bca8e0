//! Answers of rows on how long reading statements and classes takes.
#![tactic(auto)]

mod texts;
mod times;

pub use times::answer_time;
