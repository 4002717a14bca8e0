//! Answers of rows on how long reading an expression, a pattern or a type takes.
#![tactic(auto)]

mod reading;
mod texts;
mod times;

pub use times::answer_time;
