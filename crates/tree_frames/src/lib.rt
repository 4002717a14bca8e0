//! What is open where a tree is built from tokens.
#![tactic(auto)]

mod boxes;
mod frame;
mod header;
mod lists;
mod mode;
mod purpose;
mod stack;
mod stop;

pub use boxes::boxed;
pub use frame::Frame;
pub use header::{Header, TypeNameFor};
pub use lists::{
    with_bind, with_branch, with_case, with_defined, with_expr, with_field_value, with_maplet,
    with_maplet_pattern, with_pattern,
};
pub use mode::Mode;
pub use purpose::{BindsFor, Body, Compared, Conditioned, Enclosed, Listed, PatternsFor, Ranged};
pub use stack::{popped, pushed};
pub use stop::Stop;
