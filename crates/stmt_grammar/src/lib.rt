//! Reads statements of a text.
#![tactic(auto)]

mod stmts;

pub use stmts::stmt_of_tokens;
