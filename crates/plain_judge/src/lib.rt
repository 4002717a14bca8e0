//! What rows compare with the meaning: what main asks next, and which lists of entries are runs, worked out from the start
//! each time.
#![tactic(auto)]

mod asked;
mod given;
mod run;
mod standing;

pub use run::is_run;
pub use standing::{Standing, next_question};
