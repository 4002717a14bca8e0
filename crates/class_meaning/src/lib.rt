//! Definitions: what names mean in classes, how objects are laid out, and the refusals of the table of classes. No code.
#![tactic(auto)]

mod ask;
mod found;
mod laws;
mod worked;

pub use ask::{Ask, MemberKind};
pub use found::{Found, OpFound, VarFound};
pub use laws::{
    ancestors_of_classes, graphs_in_range, inherited_definitions, layouts_of_objects,
    nothing_is_found, own_definitions, tables_without_a_fault, what_is_found, what_settles,
};
pub use worked::{
    ancestors_of_a_diamond, calls_through_an_object, kinds_in_a_diamond, members_are_seen,
    names_in_a_diamond, refusals_of_classes, refusals_of_operations, refusals_of_types,
    variables_of_an_object,
};
