//! Types as alternatives of each other, and the numbers of their definitions.
#![tactic(auto)]

mod alternatives;
mod definitions;
mod graph;
mod named;
mod type_numbers;

pub use graph::type_graph;
pub use type_numbers::TypeNumbers;
