//! Answers of rows on the statements and specifications that texts are.
#![tactic(auto)]

mod cuts;
mod reading;
mod requests;

pub use reading::read;
pub use requests::answer;
