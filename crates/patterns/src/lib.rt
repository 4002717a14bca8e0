//! The first binding of a pattern with a value, and of several patterns with a value each.
#![tactic(auto)]

mod bind_list;
mod binding;
mod bound;
mod choosing;
mod lengths;
mod literals;
mod names;
mod naming;
mod open;
mod others;
mod record_types;
mod search;
mod subject;
mod todo;
mod work;

pub use bind_list::BindList;
pub use binding::{bind, bind_all};
