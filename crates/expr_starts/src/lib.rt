//! What a token begins where an expression or a pattern is wanted.
#![tactic(auto)]

mod cases;
mod closings;
mod expressions;
mod forms;
mod lists;
mod nodes;
mod pattern_closings;
mod patterns;

pub use expressions::want;
pub use patterns::want_pattern;
