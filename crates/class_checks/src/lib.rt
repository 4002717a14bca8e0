//! Definitions: which expressions are well typed, and what is refused of the others. No code.
#![tactic(auto)]

mod laws;
mod reach;
mod worked;

pub use laws::well_typed;
pub use reach::Reach;
pub use worked::{binding, branches, looking_up, operands, parts_of_operands, reaching_out};
