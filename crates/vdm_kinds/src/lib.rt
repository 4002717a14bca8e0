//! Places, names, operators, faults and limits: the small kinds that every layer speaks of.
#![tactic(auto)]

mod access;
mod basic_type;
mod counter;
mod grouping;
mod halt;
mod limits;
mod member;
mod name;
mod name_at;
mod operator;
mod part;
mod place;
mod run_fault;
mod sign;
mod spec_fault;
mod spec_kind;

pub use access::{Access, Level};
pub use basic_type::BasicType;
pub use counter::Counter;
pub use grouping::Grouping;
pub use halt::{Halt, OutOfMemory};
pub use limits::Limits;
pub use member::{OpRef, VarRef};
pub use name::Name;
pub use name_at::{NameAt, TypeName};
pub use operator::Operator;
pub use part::Part;
pub use place::Place;
pub use run_fault::RunFault;
pub use sign::Sign;
pub use spec_fault::SpecFault;
pub use spec_kind::SpecKind;
