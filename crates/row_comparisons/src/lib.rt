//! Answers of rows that compare the strict operators with the plain ones, over operands that are drawn.
#![tactic(auto)]

mod compared;
mod drawn;
mod kinds;
mod outcomes;

pub use compared::answer;
