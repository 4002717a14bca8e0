//! Answers of rows on the forms of expressions and their first refusals, and on how long it takes to tell.
#![tactic(auto)]

mod forms;
mod requests;
mod scopes;

pub use requests::{answer, answer_time};
