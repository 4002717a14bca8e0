// The class whose definitions are checked.

use check_scopes::handed::spec_table::ClassTable;
use std::alloc::Global;
use vdm_kinds::Name;

/// The class whose definitions are checked, and the table of all classes.
#[derive(Clone, Copy)]
pub struct Site<'t> {
    pub alloc: Global,
    pub table: &'t ClassTable,
    /// The name of the class.
    pub class: Name,
}
