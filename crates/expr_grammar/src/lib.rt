//! Reads types, patterns and expressions of a text.
#![tactic(auto)]

mod exprs;
mod front;
mod patterns;
mod types;

pub use exprs::expr_of_tokens;
pub use patterns::pattern_of_tokens;
pub use types::type_of_tokens;
