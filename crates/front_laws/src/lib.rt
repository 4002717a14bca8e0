//! That the words of each type, pattern and expression are a whole front, and how deep its tree is.
#![tactic(auto)]

mod laws;

pub use laws::{fronts_that_are_not_too_deep, trees_are_whole_fronts};
