//! Nodes that evaluate all their parts and make a value of them, literals, branches, and signs that stop when decided.
#![tactic(auto)]

mod branches;
mod decisions;
mod gathering;
mod literals;
mod made;
mod operands;
mod outcome;
mod pairs;
mod parts;
mod strict_nodes;

pub use branches::{branch, if_else};
pub use decisions::{Decided, infix, left_truth, on_truth, truth, truth_of};
pub use gathering::{Gathered, collected, part_among, with_value};
pub use literals::literal;
pub use made::made_of;
pub use operands::{operand, operators, prefix, range, right_operand};
pub use outcome::{make, outcome_step};
pub use parts::next_part;
pub use strict_nodes::{
    class_tested, component, map_enumeration, sequence_enumeration, set_enumeration, strict,
    subsequence, token, tuple_enumeration,
};
