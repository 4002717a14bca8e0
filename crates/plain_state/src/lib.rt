//! What a list of entries says by itself: what a variable holds, how often an operation was asked for, began and ended,
//! whether an object is there, which entry and which question may come next, and what the list decides. And the list from
//! which the questions of a run are answered.
#![tactic(auto)]

mod calls;
mod classes;
mod finish;
mod keeping;
mod layout;
mod legal;
mod order;
mod places;
mod ready;
mod state;
mod store;
mod writes;

pub use finish::{Finish, decided, finish_of};
pub use legal::is_legal_at_object;
pub use order::is_in_order;
pub use ready::is_ready;
pub use state::state_of;
pub use store::Store;
