// Tests of the classes of values.

use vdm_kinds::Name;

/// What is asked of the classes of values.
#[derive(Clone, Copy)]
pub enum ClassTest {
    /// `isofclass(C, e)`
    InClass(Name),
    /// `isofbaseclass(C, e)`
    InBaseClass(Name),
    /// `sameclass(a, b)`
    OneClass,
    /// `samebaseclass(a, b)`
    OneBaseClass,
}
