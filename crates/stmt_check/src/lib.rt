//! The check of a statement: what is refused in it.
#![tactic(auto)]

/// Crates below that are handed on.
pub mod handed {
    pub use stmt_kinds::handed::stmt_scopes;
}

mod check;
mod run;
mod state;
mod turn;

pub use check::refuse_stmt;
