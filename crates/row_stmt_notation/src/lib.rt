//! How rows write statements.
#![tactic(auto)]

mod part;
mod stmts;
mod writer;

pub use writer::say_stmt;
