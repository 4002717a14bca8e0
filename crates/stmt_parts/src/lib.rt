//! Reads what statements are made of beside the statements in them.
#![tactic(auto)]

mod assignments;
mod blocks;
mod boxes;
mod definitions;
mod optional;
mod patterns;
mod targets;
mod whole;

pub use assignments::simple;
pub use blocks::dcls;
pub use boxes::boxed;
pub use definitions::{declared_type, further_definitions, push_defined};
pub use optional::{expr_behind, such_that, value};
pub use patterns::{further_patterns, read_patterns};
pub use whole::{all_started, exited, returned, started, together};
