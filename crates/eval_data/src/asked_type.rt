// Types for which a value is asked whether it fits.

use type_tree::TypeExpr;
use vdm_kinds::{BasicType, TypeName};

/// A type for which a value is asked whether it fits.
#[derive(Clone, Copy)]
pub enum AskedType<'t> {
    /// `is_(e, T)`
    Written(&'t TypeExpr),
    /// `is_T(e)`
    Named(TypeName),
    /// `is_nat(e)` and its kin
    Basic(BasicType),
}
