//! Arithmetic, Booleans and comparison: the operators that take no memory.
#![tactic(auto)]

mod division;
mod number;
mod operand;
mod power;
mod truth;

pub use operand::{binary, unary};
