// The two texts that a run is given.

/// Which of the two texts a place is in.
#[derive(Clone, Copy, Debug, PartialEq, Eq)]
pub enum Part {
    /// The specification, which is read from the source.
    Spec,
    /// The expression, which is a word of the command line.
    Expr,
}
