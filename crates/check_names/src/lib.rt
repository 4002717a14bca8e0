//! What names mean where they stand, and what is refused of them.
#![tactic(auto)]

mod faults;
mod members;
mod names;
mod noting;
mod words;

pub use faults::{beyond, may_not_create, operation_faults, other_faults, unseen};
pub use members::{has_constructor, has_some_called};
pub use names::{is_below, read_member, read_name, read_old, read_qualified};
pub use noting::{form_in, form_unless, refuse_first, spoiled_if};
pub use words::{history, read_result, read_self};
