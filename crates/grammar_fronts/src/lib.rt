//! How far words can be the beginning of a type, a pattern or an expression.
#![tactic(auto)]

mod front;
mod kind;
mod laws;
mod open_node;
mod wanted;
mod worked;

pub use front::{Front, Reach};
pub use kind::Kind;
pub use laws::{fronts_are_viable, one_longest_front};
pub use open_node::OpenNode;
pub use wanted::Wanted;
pub use worked::{worked_depths, worked_expressions, worked_patterns, worked_types};
