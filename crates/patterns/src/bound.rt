// A name that is bound.

use crate::subject::Subject;
use vdm_kinds::Name;

/// A name, and what it stands for.
#[derive(Clone, Copy)]
pub(crate) struct Bound<'t> {
    pub(crate) name: Name,
    pub(crate) subject: Subject<'t>,
}
