//! Where a statement stands, as the checker holds it: what is bound there, which of it was declared, and what may be given back.
#![tactic(auto)]

/// Crates below that are handed on.
pub mod handed {
    pub use check_frames;
    pub use check_frames::handed::{
        check_fields, check_patterns, check_scopes, check_shapes, check_types, spec_table,
    };
}

mod declaring;
mod names;
mod returned;
mod standing;
mod stands;

pub use declaring::{Declared, declared_too, hidden_by, is_declared};
pub use names::{names_defined, names_in, names_of};
pub use returned::Returned;
pub use standing::Standing;
pub use stands::{Stands, kept, moved};
