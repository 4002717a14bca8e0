// Where something is checked.

use check_patterns::handed::check_scopes::{Locals, Setting};
use std::alloc::Global;

/// Where something is checked: the table and the scope of the whole expression, and what is bound there.
#[derive(Clone, Copy)]
pub struct Here<'a> {
    pub alloc: Global,
    pub setting: Setting<'a>,
    pub locals: &'a Locals,
}
