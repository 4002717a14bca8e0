//! Laws: what operators, patterns and literals give has no object but those of the values that they are given. No code.
#![tactic(auto)]

mod laws;
mod object_property;

pub use laws::{
    bindings_invent_no_objects, operators_invent_no_objects, values_have_the_objects_of_their_parts,
};
pub use object_property::ObjectProperty;
