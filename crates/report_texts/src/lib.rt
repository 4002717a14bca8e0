//! The command that words are, and the texts of a report. Definitions and laws, and the threads that a deadlock names.
#![tactic(auto)]

mod blocked;
mod blocked_list;
mod laws;

pub use blocked::Blocked;
pub use blocked_list::BlockedList;
pub use laws::{
    command_or_none, one_command, worked_commands, worked_lines, worked_log, worked_reports,
    worked_strings, worked_usage, worked_values,
};
