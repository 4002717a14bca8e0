//! Answers of rows on how long operators take.
#![tactic(auto)]

mod operands;
mod times;

pub use times::answer_time;
