//! Where the definitions of a class stand.
#![tactic(auto)]

/// Crates below that are handed on.
pub mod handed {
    pub use check_scopes;
    pub use check_scopes::handed::spec_table;
}

mod scopes;
mod site;

pub use scopes::{afterwards, in_class, in_operation, of_run};
pub use site::Site;
