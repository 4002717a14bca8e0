// A class object that is being made.

use vdm_kinds::{Name, VarRef};
use vdm_tree::Expr;
use vdm_values::Slot;

/// A class object, the initialisers of whose static variables are being evaluated, or whose slots are being tested; the classes behind
/// it, and the expression of the run.
pub struct ClassMaking<'t> {
    /// Its number.
    pub object: u32,
    pub class: Name,
    pub variables: &'t [VarRef],
    /// The variables that have no slot and are not being evaluated.
    pub left: &'t [VarRef],
    pub slots: Vec<Slot>,
    pub others: &'t [Name],
    pub tree: &'t Expr,
}

// By hand, so that whoever drops it calls this, and does not prove again the dropping of all that is in it.
impl<'t> Drop for ClassMaking<'t> {
    fn drop(self) {
        let ClassMaking {
            object: _,
            class: _,
            variables: _,
            left: _,
            slots: _,
            others: _,
            tree: _,
        } = self;
    }
}
