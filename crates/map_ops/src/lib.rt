//! The operators on maps.
#![tactic(auto)]

mod composition;
mod joining;
mod operand;
mod projection;
mod restriction;

pub use operand::{binary, unary};
