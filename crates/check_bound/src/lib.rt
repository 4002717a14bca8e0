//! What comes first of what binds or chooses, and of a node of parts in one scope.
#![tactic(auto)]

mod choices;
mod inside;
mod parts;

pub use choices::choice_next;
pub use inside::inside_next;
pub use parts::parts_next;
