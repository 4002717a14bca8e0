//! How rows write classes and specifications.
#![tactic(auto)]

mod blocks;
mod classes;
mod heads;
mod routines;
mod threads;
mod types;

pub use classes::say_spec;
