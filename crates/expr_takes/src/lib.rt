//! What the frames that are open make of an expression that a word ends.
#![tactic(auto)]

mod taken;

pub use taken::taken_by;
