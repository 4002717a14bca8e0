//! What calls of operations do, from the tests of their arguments to their finish.
#![tactic(auto)]

mod arguments;
mod beginning;
mod bodies;
mod parameters;
mod places;
mod results;
mod trying;

pub use arguments::{argument_fits, called};
pub use beginning::{activated, before_read, begun};
pub use bodies::{body_left, pre_came};
pub use parameters::parameter_came;
pub use results::{post_came, result_fits};
pub use trying::{Tried, value_tried};
