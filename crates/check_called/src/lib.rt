//! What comes first of a call, and of what selects a member.
#![tactic(auto)]

mod applied;
mod calls;
mod head;
mod made;
mod selections;

pub use calls::call_next;
pub use selections::selection_next;
