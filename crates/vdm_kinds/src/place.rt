// Where something stands in a text.

use crate::part::Part;

/// A place in one of the two texts. A column counts characters.
#[derive(Clone, Copy, Debug, PartialEq, Eq)]
pub struct Place {
    pub part: Part,
    /// From 1.
    pub line: u32,
    /// From 1.
    pub column: u32,
}
