//! Patterns that meet values: the steps of `let`, `def` and `cases`.
#![tactic(auto)]

mod alternatives;
mod definitions;
mod frames;
mod meeting;
mod openings;
mod parts;
mod trial;
mod trying;

pub use frames::{cut, definition_fits, definition_met, subject_met};
pub use meeting::{meets, met_with};
pub use openings::{cases, def_in, let_in};
