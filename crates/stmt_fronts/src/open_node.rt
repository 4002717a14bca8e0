// A node of which something was read and something is still to come.

/// A statement, a type, a pattern or an expression that began and is not at its end.
#[derive(Clone, Copy, Debug, PartialEq, Eq)]
pub struct OpenNode {
    /// How strongly it pulls at what stands behind its last part: an operator that pulls less takes all of it as its left
    /// operand. 0 where no operator does.
    pub pull: u32,
    /// How deep the deepest of its parts so far is.
    pub deepest: u32,
    /// How much is wanted behind it.
    pub below: usize,
    /// Whether it is open round what is read. A call statement is not: it has no word of its own.
    pub counts: bool,
}
