//! The check of a specification and of the expression of a run.
#![tactic(auto)]

/// Crates below that are handed on.
pub mod handed {
    pub use sync_checks::handed::spec_table;
}

mod blocks;
mod check;
mod checked;
mod classes;
mod left_out;
mod lists;

pub use check::{check_main, check_spec};
pub use checked::{Checked, CheckedExpr};
