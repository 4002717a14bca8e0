//! Answers of rows on operators.
#![tactic(auto)]

mod applied;
mod signs;

pub use applied::answer;
