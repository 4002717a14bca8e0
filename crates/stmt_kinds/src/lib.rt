//! What is refused in a statement by its kind, and in all else that is still to be checked.
#![tactic(auto)]

/// Crates below that are handed on.
pub mod handed {
    pub use stmt_bound::handed::stmt_pending;
    pub use stmt_simple::handed::{check_frames, check_scopes, stmt_scopes};
}

mod stmts;
mod tasks;

pub use tasks::pending_next;
