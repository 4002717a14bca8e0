//! What rows write of a node of a type, a pattern or an expression: its word, and its parts.
#![tactic(auto)]

mod exprs;
mod far_forms;
mod made;
mod node;
mod patterns;
mod types;

pub use exprs::expr_node;
pub use node::{Node, Part};
pub use patterns::pattern_node;
pub use types::type_node;
