// Where a statement stands, as it is kept until the statement's turn comes.

use crate::declaring::Declared;
use check_frames::handed::check_scopes::Locals;

/// Where a statement stands: what is bound there, and which of it was declared.
#[derive(Drop)]
pub struct Standing {
    pub locals: Locals,
    pub declared: Declared,
}
