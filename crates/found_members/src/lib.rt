//! What names mean in classes: each class's own members, and what superclasses agree on.
#![tactic(auto)]

mod agreement;
mod following;
mod found_names;
mod heirs;
mod inherited;
mod ways;

pub use found_names::FoundNames;
