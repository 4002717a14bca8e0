//! Answers of rows on the table of the classes of a text.
#![tactic(auto)]

mod asked;
mod classes;
mod hosts;
mod members;
mod places;
mod requests;
mod said;

pub use requests::answer;
