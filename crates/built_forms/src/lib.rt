//! What of a tree is built so far: the place of the first form, in text order, that has no meaning yet.
#![tactic(auto)]

mod classes;
mod definitions;
mod faults;
mod members;
mod statements;
mod targets;

pub use faults::unbuilt_fault;
