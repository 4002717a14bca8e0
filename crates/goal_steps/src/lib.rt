//! What blocks do with their local variables, and assignments with what they write to.
#![tactic(auto)]

mod assigning;
mod blocks;
mod changing;
mod goals;
mod indexing;
mod initials;
mod keeping;
mod parts;
mod storing;
mod testing;
mod together;

pub use assigning::{assign, assign_value};
pub use blocks::{block, local_came, local_fits};
pub use changing::old_read;
pub use goals::{goal_of, target_steps};
pub use indexing::index_came;
pub use keeping::{goal_fits, join_came};
pub use storing::{store_value, written};
pub use together::assign_together;
