//! What assignments change: values with other parts, and the newest local of a name.
#![tactic(auto)]

mod changing;
mod locals;

pub use changing::changed_by;
pub use locals::{declared_type, set_newest};
