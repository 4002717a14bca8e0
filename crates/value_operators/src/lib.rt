//! The strict operators on values, as the table of the language has them: definitions, and their laws as functions without code.
#![tactic(auto)]

mod laws;
mod worked;

pub use laws::{membership_is_decided, sets_have_their_members};
pub use worked::{worked_numbers, worked_sequences_and_maps, worked_sets};
