//! What names, selections, applications, calls, new objects, the time and tests of classes do: steps of the evaluation of expressions.
#![tactic(auto)]

mod applied;
mod applying;
mod argument_list;
mod calling;
mod class_tests;
mod creating;
mod homes;
mod look_ups;
mod outcomes;
mod parts;
mod reading;
mod selecting;
mod slots;
mod telling;

pub use applying::{application, bare_call};
pub use calling::{call_asked, called_selected};
pub use class_tests::class_told;
pub use creating::{created, creation_asked};
pub use homes::{variable_here, variable_home};
pub use look_ups::{
    function_in, operation_definition, operation_in, operation_reached, value_in,
    variable_definition, variable_in, variables_of,
};
pub use outcomes::after_need;
pub use reading::{name, old_name, old_value, qualified, result_value, self_value};
pub use selecting::selected;
pub use slots::{held_slot, local_slot};
pub use telling::time_told;
