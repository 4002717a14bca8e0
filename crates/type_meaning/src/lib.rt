//! Definitions: which values a type takes, and which invariants have to hold of them. No code.
#![tactic(auto)]

mod worked;

pub use worked::{decisions, invariants_of_parts, leaves, maps_and_objects, unions};
