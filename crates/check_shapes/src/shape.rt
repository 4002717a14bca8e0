// Nodes whose parts stand in one scope, and their parts.

use expr_tree::FieldValue;
use type_forms::Form;
use vdm_kinds::Sign;

/// A part that was checked.
pub struct Seen {
    pub form: Form,
    /// Whether it met what its place wants.
    pub fits: bool,
}

// A derived drop would be proved again in each crate that drops one.
impl Drop for Seen {
    fn drop(self) {
        let Seen { form: _, fits: _ } = self;
    }
}

/// A node by what its parts have to meet.
pub enum Shape<'t> {
    /// An operator before its operand.
    Prefix(Sign),
    /// An operator between two operands.
    Operator(Sign),
    /// `{a, ..., b}`
    Range,
    /// An enumeration, or what a comprehension makes of each element.
    Set,
    Sequence,
    /// Keys and values in turn.
    Map,
    Tuple,
    Token,
    /// A test of any value.
    Test,
    /// A condition under a quantifier.
    Condition,
    /// Arguments, or the fields of a record: what each has to meet, and what is given.
    Call(Vec<Form>, Form),
    /// `e.#1`
    Part(i128),
    /// `q(i, ..., j)`
    Subsequence,
    /// `mu(r, f |-> a)`: the fields.
    Changed(&'t Vec<FieldValue>),
}

impl<'t> Drop for Shape<'t> {
    fn drop(self) {
        match self {
            Shape::Prefix(_) => {}
            Shape::Operator(_) => {}
            Shape::Range => {}
            Shape::Set => {}
            Shape::Sequence => {}
            Shape::Map => {}
            Shape::Tuple => {}
            Shape::Token => {}
            Shape::Test => {}
            Shape::Condition => {}
            Shape::Call(_, _) => {}
            Shape::Part(_) => {}
            Shape::Subsequence => {}
            Shape::Changed(_) => {}
        }
    }
}
