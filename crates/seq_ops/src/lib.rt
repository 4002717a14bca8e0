//! The operators on sequences.
#![tactic(auto)]

mod joining;
mod operand;
mod position;
mod projection;
mod replacing;

pub use operand::{binary, unary};
pub use position::part;
