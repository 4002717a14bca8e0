//! Values of the language, and lists of them.
#![tactic(auto)]

mod ordering;
mod pair_list;
mod slot;
mod slot_list;
mod value;
mod value_list;

pub use ordering::order;
pub use pair_list::PairList;
pub use slot::Slot;
pub use slot_list::SlotList;
pub use value::{Node, Value};
pub use value_list::ValueList;
