//! How a call of the program ends, and its report: made in memory, and written to the sink.
#![tactic(auto)]

mod end;
mod last_line;
mod report;
mod writing;

pub use end::End;
pub use report::Report;
pub use writing::written;
