//! The forms by which the checker knows values, as the program holds them.
#![tactic(auto)]

mod form;
mod joining;
mod kinds;
mod meeting;
mod opening;
mod taking;
mod typing;

pub use form::{Alt, Form, Node};
pub use joining::joined;
pub use meeting::meets;
pub use opening::{form_of, opened};
pub use taking::{PartOf, taken};
pub use typing::part_form;
