// How far words are the beginning of what they are read as.

use vdm_kinds::Place;

/// How far words are the beginning of what they are read as.
#[derive(Clone, Copy, Debug, PartialEq, Eq)]
pub enum Front {
    /// At the place is the first word of the longest front round which 200 nodes are open, or with which a node of a depth above 200 ends.
    TooDeep(Place),
    /// Nothing of the longest front is too deep.
    Reaches(Reach),
}

/// The longest front that is viable, and what stands behind it.
#[derive(Clone, Copy, Debug, PartialEq, Eq)]
pub struct Reach {
    /// How many words it has.
    pub words: usize,
    /// Whether nothing more has to come.
    pub whole: bool,
    /// Whether the word behind it is of a form that the profile leaves out.
    pub left_out: bool,
}
