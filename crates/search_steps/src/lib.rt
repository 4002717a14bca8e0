//! Nodes that go through the choices of elements of sets: comprehensions, quantifiers, `iota`, `let be`.
#![tactic(auto)]

mod brackets;
mod chosen;
mod copies;
mod decided;
mod ends;
mod found;
mod gathered;
mod kept;
mod kinds;
mod matched;
mod parts;
mod passing;
mod searching;
mod sets;

pub use chosen::choose;
pub use decided::{choice_decided, next_choice};
pub use kinds::{choosing_in, choosing_one, choosing_several, finding};
pub use searching::searches;
pub use sets::elements;
