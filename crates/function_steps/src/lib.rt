//! What functions and class values do: steps of the evaluation of expressions.
#![tactic(auto)]

mod applications;
mod arguments;
mod bodies;
mod brackets;
mod class_values;
mod look_ups;
mod parameters;
mod parts;
mod results;

pub use applications::applied;
pub use arguments::argument_fits;
pub use bodies::pre_decided;
pub use brackets::givens_of;
pub use class_values::{class_value, value_given};
pub use parameters::{bound, meet};
pub use results::{post_decided, post_of, result_given, result_name};
