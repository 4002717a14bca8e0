//! That the tokens of each statement and specification are viable, and nothing more has to come behind them.
#![tactic(auto)]

mod laws;

pub use laws::{specifications_are_viable, statements_are_viable};
