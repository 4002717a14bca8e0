//! What comes next of the parts of a node, of a condition and what stands under it, behind patterns, and of a call.
#![tactic(auto)]

/// Crates below that are handed on.
pub mod handed {
    pub use check_calls;
    pub use check_calls::handed::{check_names, check_scopes, spec_table};
    pub use check_frames;
    pub use check_frames::handed::{check_patterns, check_shapes, check_types};
}

mod after;
mod boxes;
mod calls;
mod inside;
mod naming;
mod parts;

pub use after::givens_next;
pub use boxes::{becomes, part_of, place_of};
pub use calls::called_next;
pub use inside::{body_next, condition_next, inside_next};
pub use naming::named_at;
pub use parts::{part_next, rest_next};
