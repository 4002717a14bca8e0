//! How rows write types, patterns and expressions.
#![tactic(auto)]

mod leaves;
mod writer;

pub use writer::{say_expr, say_pattern, say_type};
