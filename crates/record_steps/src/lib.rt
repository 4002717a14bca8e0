//! What records do: how they are made and changed, and what a field of one has.
#![tactic(auto)]

mod changing;
mod fields;
mod made;
mod making;
mod nodes;
mod placing;
mod types;

pub use changing::record_changed;
pub use fields::field_value;
pub use made::field_fits;
pub use making::record_made;
pub use nodes::{make_record, modify_record};
pub use placing::with_field;
pub use types::fields_of;
