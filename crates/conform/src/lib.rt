//! Whether a type takes a value: the shape first, and then the invariants, of which each is asked for.
#![tactic(auto)]

mod basic;
mod collecting;
mod compound;
mod conforming;
mod frame;
mod goal;
mod going_on;
mod leaves;
mod named;
mod parts;
mod shape;
mod shapes;
mod test;
mod testing;

pub use basic::is_of_basic;
pub use conforming::{Fit, InvRunner, conform};
pub use shapes::{tests_of, tests_of_name};
pub use test::Test;
pub use testing::{Testing, Turn};
