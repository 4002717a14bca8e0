//! The evaluation of one expression without a thread: it stands where the meaning stands, and hands out what it needs.
#![tactic(auto)]

mod doing;
mod env;
mod eval;
mod pure;
mod turn;

pub use env::Env;
pub use eval::Eval;
pub use pure::run_pure;
pub use turn::Turn;
