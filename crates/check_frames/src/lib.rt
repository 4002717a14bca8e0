//! What the checker of expressions still has to do, as data.
#![tactic(auto)]

/// Crates below that are handed on.
pub mod handed {
    pub use check_patterns;
    pub use check_patterns::handed::{check_scopes, check_types, spec_table};
    pub use check_shapes;
    pub use check_shapes::handed::check_fields;
}

mod after;
mod bind_step;
mod cases;
mod choice;
mod here;
mod inside;
mod next;
mod rest;
mod step;
mod way;

pub use after::{After, Goal};
pub use bind_step::{BindStep, Binds};
pub use cases::{CaseValues, Cases};
pub use choice::{Branches, Choice};
pub use here::Here;
pub use inside::{Body, Inside};
pub use next::Next;
pub use rest::Rest;
pub use step::{Frame, Step};
pub use way::Way;
