//! What is refused in statements in which no other stands.
#![tactic(auto)]

/// Crates below that are handed on.
pub mod handed {
    pub use stmt_targets::handed::{check_frames, check_scopes, stmt_scopes};
}

mod given_back;
mod simple;
mod threads;

pub use simple::refuse_simple;
