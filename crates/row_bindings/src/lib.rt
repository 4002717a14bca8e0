//! Answers of rows on bindings: whether the first one that is found is the first of all, and how long it takes.
#![tactic(auto)]

mod comparing;
mod inputs;
mod random;
mod times;
mod words;

pub use comparing::answer;
pub use times::answer_time;
