//! How far words can be the beginning of a statement or a specification.
#![tactic(auto)]

mod ending;
mod expected;
mod kind;
mod laws;
mod open_node;
mod worked;

pub use ending::Ending;
pub use expected::Expected;
pub use kind::Kind;
pub use laws::one_longest_front;
pub use open_node::OpenNode;
pub use worked::{
    worked_brackets, worked_classes, worked_definitions, worked_depths, worked_forms,
    worked_specifications, worked_statements,
};
