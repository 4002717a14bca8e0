//! A lock that is taken in turns, over a value that stands for a list of notes, and a source of stamps.
#![tactic(auto)]

mod bells;
mod dealing;
mod held;
mod laws;
mod lock;
mod pass;
mod rule;
mod steps;
mod storied;
mod turns;
mod view;

pub use held::TurnHeld;
pub use laws::{each_pass_knows_a_beginning, free_value_has_every_note, one_turn_at_a_time};
pub use lock::TurnLock;
pub use pass::TurnPass;
pub use rule::{Opening, Turns};
pub use storied::Storied;
pub use view::{Stage, View};
