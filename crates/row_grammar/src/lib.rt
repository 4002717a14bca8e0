//! Answers of rows on the trees that a text has.
#![tactic(auto)]

mod requests;

pub use requests::answer;
