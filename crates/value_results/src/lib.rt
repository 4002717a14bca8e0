//! Results of operators: values within the limits of size, what is found in sets and maps by halving, and copies.
#![tactic(auto)]

mod copies;
mod halving;
mod results;

pub use copies::{push_copies, push_copy, push_pair, push_pairs};
pub use halving::{found, has};
pub use results::{map_result, set_result, sized};
