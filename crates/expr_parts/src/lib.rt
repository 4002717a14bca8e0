//! What stands behind an expression in lists, maps, comprehensions, definitions and choices.
#![tactic(auto)]

mod binds;
mod choices;
mod closes;
mod collections;
mod definitions;
mod wanted;

pub use binds::{behind_sequence_set, behind_set};
pub use choices::{behind_branch, behind_case, subject};
pub use closes::{enclosed, matched, modified, right_class, tested, tuple_started};
pub use collections::{behind_item, behind_maplet, end_condition, end_range};
pub use definitions::{behind_definition, behind_field};
pub use wanted::{next_at, opened_at};
