//! What is refused of the threads of classes and of the clauses of synchronisation.
#![tactic(auto)]

/// Crates below that are handed on.
pub mod handed {
    pub use part_checks::handed::{check_scopes, definition_scopes, spec_table, type_check};
}

mod clauses;
mod numbers;
mod phases;
mod releases;
mod threads;

pub use clauses::refuse_clause;
pub use threads::refuse_thread;
