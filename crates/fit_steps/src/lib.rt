//! Whether values fit declared types: the shape, and then the invariants, of which each is evaluated.
#![tactic(auto)]

mod advancing;
mod answers;
mod fitting;
mod invariants;
mod parts;
mod sharing;
mod tested;
mod verdicts;

pub use advancing::told;
pub use answers::fit_answer;
pub use fitting::{fitted, fitted_maybe};
pub use invariants::behind_brackets;
pub use sharing::all_shared;
pub use tested::Tested;
