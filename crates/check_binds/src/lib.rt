//! What follows from the form of the set of a bind, or of the value of a definition.
#![tactic(auto)]

mod definitions;
mod patterns;
mod sets;

pub use definitions::{defined_form, definition_faults, inside_pattern};
pub use sets::{bind_step_next, set_faults, with_elements};
