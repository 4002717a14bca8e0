//! What the checker of statements still has to check, as data.
#![tactic(auto)]

/// Crates below that are handed on.
pub mod handed {
    pub use stmt_scopes;
    pub use stmt_scopes::handed::{check_patterns, check_scopes, check_shapes};
}

mod bodies;
mod next;
mod pending;
mod task;

pub use bodies::{Bodies, Cases};
pub use next::{Next, maybe_next, next_in, then_next};
pub use pending::{Pending, pending_in};
pub use task::Task;
