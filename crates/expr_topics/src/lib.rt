//! What kinds of expressions there are to the checker.
#![tactic(auto)]

mod topic;

pub use topic::{Topic, expr_topic};
