//! What a thread asks for, entries answer; once it is over it stays so; and what it prints are characters. Laws alone.
#![tactic(auto)]

mod laws;

pub use laws::{main_has_no_need, main_prints_characters, over_stays_over};
