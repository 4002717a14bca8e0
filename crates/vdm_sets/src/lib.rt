//! Sets and maps as values, and how large a value is.
#![tactic(auto)]

mod map;
mod set;
mod size;

pub use map::map_from;
pub use set::set_from;
pub use size::{depth, nodes, within_limits};
