//! The expressions in brackets in patterns.
#![tactic(auto)]

mod brackets;

pub use brackets::{givens_in, givens_in_each};
