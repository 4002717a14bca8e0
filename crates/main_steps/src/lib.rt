//! What a thread asks, and what main does from its class objects to its end.
#![tactic(auto)]

mod main_code;
mod question;
mod statics;
mod testing;

pub use main_code::{class_made, ended, make_class_objects};
pub use question::question_of;
pub use statics::static_came;
pub use testing::static_fits;
