//! The classes of a specification by their numbers, with `IO` as the first, and the members of a class by their names.
#![tactic(auto)]

mod block_items;
mod class_list;
mod graph;
mod io;
mod laws;
mod member_at;
mod notes;
mod numbers;
mod own_members;

pub use class_list::ClassList;
pub use graph::class_graph;
pub use laws::class_graph_is_in_range;
pub use member_at::{MemberAt, function_at, operation_at, type_at, value_at, variable_at};
pub use own_members::OwnMembers;
