//! What operands of operators have to meet, and the form of what each operator gives.
#![tactic(auto)]

mod kind;
mod literals;
mod making;
mod operators;
mod signs;
mod ways;

pub use kind::{Kind, is_like};
pub use literals::literal_form;
pub use making::{map_with, sequence_of, sequence_with, set_with};
pub use operators::{of_one, of_two};
pub use signs::{Operands, is_source, left_want, operand_want, source, subsequence_want};
pub use ways::{WayOfOne, WayOfTwo, way_of_one, way_of_two};
