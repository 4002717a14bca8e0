// Why a text is refused, and where.

use crate::place::Place;
use crate::spec_kind::SpecKind;

/// A refusal of the specification or the expression.
#[derive(Clone, Copy, Debug, PartialEq, Eq)]
pub struct SpecFault {
    pub kind: SpecKind,
    pub place: Place,
}
