// Where an expression stands.

use class_checks::Reach;
use shared_names::SharedMap;
use type_forms::Form;
use vdm_kinds::Name;

/// The form of each name that a pattern, a parameter or a declaration binds.
pub type Locals = SharedMap<Form>;

/// Where an expression stands.
#[derive(Drop)]
pub struct Scope {
    /// The class; the expression of a run has none.
    pub class: Option<Name>,
    pub locals: Locals,
    /// The form of `RESULT`, where it may stand.
    pub result: Option<Form>,
    /// Whether `x~` may stand, as in the `post` of an operation.
    pub old: bool,
    /// Whether there is an object: none in the expression of a run and in static operations.
    pub object: bool,
    pub reach: Reach,
}
