//! What is refused of the definitions of a class: types with invariants, class values, instance variables and invariants,
//! functions, and operations.
#![tactic(auto)]

mod functions;
mod operations;
mod type_defs;
mod values;
mod variables;

pub use functions::refuse_function;
pub use operations::refuse_operation;
pub use type_defs::refuse_type_def;
pub use values::refuse_value;
pub use variables::refuse_item;
