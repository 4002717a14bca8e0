// What reading comes to.

use vdm_kinds::Place;

/// What reading in one of the ways comes to where nothing more is taken.
#[derive(Clone, Copy, Debug, PartialEq, Eq)]
pub struct Ending {
    /// Whether nothing more has to come.
    pub whole: bool,
    /// Whether the word that stands there is of a form that is left out.
    pub left_out: bool,
    /// Where it is too deep.
    pub deep: Option<Place>,
}
