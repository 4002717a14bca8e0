// What an expression may reach, by where it stands.

/// What an expression may name.
#[derive(Clone, Copy, Debug, PartialEq, Eq)]
pub enum Reach {
    /// All: the expression of a run, and all that stands in an operation or a thread.
    Free,
    /// No variable, operation, `self`, `time` or counter, but `new`: the initial value of a variable.
    Init,
    /// As an initial value, and no `new`: a function, a class value, the invariant of a type.
    Pure,
    /// The object's own variables, class values, functions and counters: a permission predicate.
    Guard,
    /// As a predicate, and no counter: an instance invariant.
    Inv,
}
