//! Pure trees of the language: definitions, and their laws as functions without code.
#![tactic(auto)]

mod order;
mod sets;
mod values;

pub use order::order_is_total;
pub use sets::{
    maps_are_told_by_their_pairs, sets_and_maps_are_canonical, sets_are_told_by_their_members,
};
pub use values::{lists_and_pairs_are_kept, parts_are_kept, the_test_is_equality};
