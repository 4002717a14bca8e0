//! What came of an expression: a value, a truth value or a number, where one is wanted.
#![tactic(auto)]

mod came;

pub use came::{Came, Number, Truth, number_in, truth_in, value_in};
