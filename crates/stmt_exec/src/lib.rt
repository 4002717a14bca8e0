//! The machine of a thread: it stands where the meaning stands, with a stack of its own.
#![tactic(auto)]

mod answering;
mod machine;
mod rest;
mod running;

pub use machine::Machine;
