//! What a thread does next: at a task, behind the answer to an asking, and behind what came of a part.
#![tactic(auto)]

/// Crates below that are handed on.
pub mod handed {
    pub use call_steps;
    pub use object_steps;
}

mod answered;
mod task;
mod values;
mod waiting;

pub use answered::answered_of;
pub use task::node_plan;
pub use waiting::then_of;
