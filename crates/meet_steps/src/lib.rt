//! Statements whose patterns meet values: definitions, alternatives, loops over elements, and handlers.
#![tactic(auto)]

mod choices;
mod defining;
mod elements;
mod handlers;
mod meeting;
mod onward;
mod parts;
mod trying;

pub use choices::alternatives;
pub use defining::{defined, defined_fits, definitions, only_definition};
pub use elements::{elements_of_sequence, elements_of_set, next_element};
pub use handlers::{caught, trapped};
pub use meeting::{given, meets};
pub use parts::{found, within};
