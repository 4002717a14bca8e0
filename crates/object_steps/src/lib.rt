//! What new objects do, and which questions a need stands for.
#![tactic(auto)]

mod keeping;
mod need;
mod object;
mod testing;

pub use need::needed;
pub use object::{created, initialised};
pub use testing::slot_fits;
