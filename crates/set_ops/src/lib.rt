//! The operators on numbers, Booleans and sets.
#![tactic(auto)]

mod comparison;
mod distributed;
mod intervals;
mod joining;
mod operand;
mod plain;
mod powers;

pub use operand::{binary, unary};
