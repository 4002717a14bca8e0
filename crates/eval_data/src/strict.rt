// What is made of the values of all parts of a node.

use vdm_kinds::Operator;

/// What is made of the values of all parts of a node.
#[derive(Clone, Copy)]
pub enum Strict {
    /// An operator before its operand.
    OneOperand(Operator),
    /// An operator between two, a range, a look-up.
    TwoOperands(Operator),
    /// `{a, b}`
    Set,
    /// `[a, b]`
    Sequence,
    /// `mk_(a, b)`
    Tuple,
    /// `{a |-> b, c |-> d}`: keys and values in turn.
    Map,
    /// `mk_token(a)`
    Token,
    /// `q(i, ..., j)`
    Subsequence,
    /// `t.#1`
    Component(i128),
}
