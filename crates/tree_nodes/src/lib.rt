//! The trees that frames become, how strongly words and frames pull at an expression, and how frames are opened.
#![tactic(auto)]

mod nodes;
mod openings;
mod stops;

pub use nodes::{compare, completed, enclose, whole_list, whole_patterns, with_body};
pub use openings::{awaiting, binding, is_empty, opened, opened_pattern};
pub use stops::{is_infix, joins, pull, stop_of, word_pull};
