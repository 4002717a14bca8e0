//! What loops do.
#![tactic(auto)]

mod numbers;
mod rounds;
mod whiles;

pub use numbers::{by_number, first_number, last_number};
pub use rounds::counted;
pub use whiles::{again, while_decided};
