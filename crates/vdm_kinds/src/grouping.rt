// How operators of one level group.

/// How an operator groups beside others of its level.
#[derive(Clone, Copy, Debug, PartialEq, Eq)]
pub enum Grouping {
    /// Between operands: the left one takes in what stands before it.
    Left,
    /// Between operands: the right one takes in what stands behind it.
    Right,
    /// Before its one operand.
    Prefix,
}
