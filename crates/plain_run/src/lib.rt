//! A run from its beginning to its end: the questions of main's machine, answered from the list of entries.
#![tactic(auto)]

/// A crate below that is handed on.
pub mod handed {
    pub use stmt_exec;
}

mod ran;
mod turn;

pub use ran::{Ran, run};
