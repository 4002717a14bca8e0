//! The loop that answers one line after another.
//!
//! A request is a line of words, the first of which says what is asked; `row_values`, `row_operators`, `row_comparisons`,
//! `row_lists`, `row_patterns`, `row_bindings`, `row_logs`, `row_grammar`, `row_classes`, `row_tables` and `row_checks` say
//! which there are. A line that is no request is answered by `unreadable`.
#![tactic(auto)]

mod requests;

pub use requests::serve;
