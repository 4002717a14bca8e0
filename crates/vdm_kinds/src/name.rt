// A name as a number.

/// A name, as its place in the list of names.
#[derive(Clone, Copy, Debug, PartialEq, Eq)]
pub struct Name(pub u32);

impl Name {
    /// The class `IO`, which is there before any text.
    pub const IO: Name = Name(0);
}
