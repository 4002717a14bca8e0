//! What is refused in statements that bind or declare names for others, and what stands inside.
#![tactic(auto)]

/// Crates below that are handed on.
pub mod handed {
    pub use stmt_pending;
}

mod bound;
mod lets;
mod loops;

pub use bound::bound_next;
