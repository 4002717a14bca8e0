//! A source of numbers that several threads draw from: no number is drawn twice, and those of one thread rise.
#![tactic(auto)]

mod dealing;
mod pass;
mod rule;
mod source;

pub use pass::StampPass;
pub use rule::{Drawn, Opening, Stamps};
pub use source::StampSource;
