//! The meaning of plans: what a task comes to with given answers and units, and its laws.
#![tactic(auto)]

mod laws;
mod rules;
mod unit;

pub use laws::{
    answers_are_taken_from_the_front, answers_only_add, bind_follows, equation,
    levels_never_matter, only_takes, questions_are_bounded, steps_are_sound,
};
pub use rules::HistoryRules;
pub use unit::take_unit;
