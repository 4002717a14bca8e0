//! Definitions: the forms by which the checker knows values. No code.
#![tactic(auto)]

mod laws;
mod worked;

pub use laws::{forms_joined, forms_meet};
pub use worked::{forms_of_types, what_meets};
