//! What is refused in statements that choose between others or stand round them, and in the lists of these.
#![tactic(auto)]

mod alternatives;
mod branches;
mod chosen;
mod handlers;
mod stmts;

pub use alternatives::{bodies_next, cases_next};
pub use branches::branches_next;
pub use chosen::chosen_next;
pub use handlers::handlers_next;
pub use stmts::stmts_next;
