//! A whole call of the program: from its words, its source and its sink to the report that it writes.
#![tactic(auto)]

mod chosen;
mod command;
mod laws;
mod meant;
mod number;
mod run;
mod run_option;
pub mod vdm_main;

pub use laws::{
    a_check_runs_nothing, a_silent_count_is_a_checks, a_silent_refusal_is_first, the_end_is_meant,
    the_end_is_the_runs, the_journal_is_empty, the_journal_is_the_run,
};
