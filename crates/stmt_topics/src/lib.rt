//! What kinds of statements there are to the checker.
#![tactic(auto)]

mod topic;

pub use topic::{Topic, stmt_topic};
