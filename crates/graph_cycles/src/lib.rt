//! Graphs of numbered nodes: which nodes are on a cycle, and an order of those that lead to none.
#![tactic(auto)]

mod cycles;
mod laws;
mod nodes;
mod placing;

pub use cycles::on_cycles;
pub use laws::{nodes_in_order, settled_nodes, steps_are_enough, unsettled_nodes};
pub use placing::order;
