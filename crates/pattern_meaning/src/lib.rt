//! Definitions: what a pattern matches, and what its names then stand for. No code.
#![tactic(auto)]

mod laws;
mod worked;

pub use laws::{names_have_their_values, the_first_is_taken, what_is_tried_fits};
pub use worked::{fronts, records_and_brackets, sets_and_maps};
