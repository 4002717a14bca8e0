//! Patterns that meet values: what they bind.
#![tactic(auto)]

mod attempt;
mod binding;

pub use attempt::Attempt;
pub use binding::{bound, bound_or, first_match, push_shared, type_scope};
