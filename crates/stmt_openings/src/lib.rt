//! Reads what stands in a statement before the first statement in it, and between the statements in it.
#![tactic(auto)]

mod beginning;
mod between;
mod header;
mod lets;
mod loops;
mod opening;
mod openings;

pub use between::{AfterCase, behind_case, branch_opening, case_opening, closes, handler_opening};
pub use header::Header;
pub use opening::Opening;
pub use openings::read_opening;
