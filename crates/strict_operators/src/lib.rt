//! What the strict operators give of values, by the table of the language.
#![tactic(auto)]

mod application;

pub use application::{binary, unary};
