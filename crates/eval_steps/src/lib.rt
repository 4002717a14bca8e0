//! What each node of an expression does, and what is done with what comes of its parts.
#![tactic(auto)]

/// A crate below that is handed on.
pub mod handed {
    pub use name_steps;
}

mod called;
mod chosen;
mod dispatch;
mod named;
mod parts;
mod plain;
mod searched;
mod selected;
mod tested;
mod then;
mod uses;

pub use called::bare_call;
pub use dispatch::expression;
pub use then::then_of;
