//! What assignments write to: which variable is meant, the form that is wanted, and what is refused, also of several at once.
#![tactic(auto)]

/// Crates below that are handed on.
pub mod handed {
    pub use target_steps::handed::{
        check_frames, check_scopes, check_shapes, check_steps, stmt_exprs, stmt_scopes, type_check,
    };
}

mod apart;
mod assigned;
mod looked_for;
mod named;
mod owned;
mod targets;

pub use apart::refuse_apart;
pub use assigned::{refuse_assigned, refuse_assignments};
