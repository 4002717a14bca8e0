// A name that is bound, with its form.

use type_forms::Form;
use vdm_kinds::Name;

/// A name that a pattern binds, with the form of what it stands for.
#[derive(Drop)]
pub struct LocalForm {
    pub name: Name,
    pub form: Form,
}
