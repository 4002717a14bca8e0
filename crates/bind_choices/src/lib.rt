//! The choices of one value of each of several lists, one after the other.
#![tactic(auto)]

mod choices;
mod copies;
mod indices;

pub use choices::Choices;
pub use copies::copy_of;
