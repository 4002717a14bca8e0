//! What comes next of what stands one behind the other: binds, definitions, and the alternatives of an `if` or a `cases`.
#![tactic(auto)]

/// Crates below that are handed on.
pub mod handed {
    pub use check_steps;
    pub use check_steps::handed::{check_calls, check_frames, check_scopes, check_shapes};
}

mod binding;
mod branching;
mod cases;

pub use binding::{binds_next, definitions_next, set_next};
pub use branching::{branches_next, if_next, others_next};
pub use cases::{cases_next, values_next};
