//! Laws of the strict operators: what is in the set or the map that each gives, as functions without code.
//!
//! No other canonical set or map has these members or pairs, as laws of `abstract_syntax` say.
#![tactic(auto)]

mod map_laws;
mod sequence_laws;
mod set_laws;

pub use map_laws::{
    compositions_have_their_pairs, look_ups_find_pairs, maps_have_their_pairs,
    overrides_and_restrictions_have_their_pairs, unions_of_maps_have_their_pairs,
};
pub use sequence_laws::{
    overridden_sequences_have_the_maps_values, sequences_have_their_positions_and_elements,
};
pub use set_laws::{
    power_sets_have_the_subsets, ranges_have_the_numbers, sets_of_sets_have_their_members,
};
