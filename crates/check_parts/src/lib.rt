//! What follows from the form of a part, and what comes behind patterns.
#![tactic(auto)]

/// Crates below that are handed on.
pub mod handed {
    pub use check_binds;
}

mod after;
mod alternatives;
mod frames;
mod node_parts;
mod targets;

pub use after::after_next;
pub use frames::frame_next;
