//! The lines of the log, and the report that they stand in.
#![tactic(auto)]

mod deed;
mod line;
mod member;
mod place;
mod prints;
mod report;
mod slots;
mod thread;
mod writes;

pub use line::log_line;
pub use member::push_operation;
pub use place::push_place;
pub use report::report_text;
pub use slots::push_spaced;
pub use thread::push_thread;
