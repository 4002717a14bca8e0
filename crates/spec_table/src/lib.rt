//! The table of the classes: what names mean in classes, how objects are laid out, and who may name a member.
#![tactic(auto)]

mod calls;
mod hosts;
mod item;
mod lines;
mod look_ups;
mod making;
mod meanings;
mod members;
mod table;
mod type_names;
mod typing;

pub use item::Item;
pub use making::table_of;
pub use meanings::{Meant, Owner};
pub use table::ClassTable;
