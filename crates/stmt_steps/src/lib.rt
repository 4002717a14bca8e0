//! What statements do.
#![tactic(auto)]

mod leaving;
mod looping;
mod statements;
mod threads;

pub use statements::statement;
pub use threads::{start, start_all};
