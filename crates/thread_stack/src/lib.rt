//! The stack of a thread: what waits in it, and how a node is entered.
#![tactic(auto)]

/// A crate below that is handed on.
pub mod handed {
    pub use next_steps;
}

mod acting;
mod entering;
mod stack;
mod testing;

pub use stack::Stack;
