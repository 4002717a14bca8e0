//! What of a node is built so far by itself: the place of one that has no meaning yet, whatever stands in it.
#![tactic(auto)]

mod nodes;

pub use nodes::{left_out_here, unless};
