// What is still to be matched.

use crate::subject::Subject;
use expr_tree::{MapletPattern, Pattern};
use vdm_kinds::Name;
use vdm_values::Value;

/// A pattern with a value, or patterns with parts of a value.
#[derive(Drop)]
pub(crate) enum Todo<'t> {
    /// A pattern with a value.
    Match(&'t Pattern, Subject<'t>),
    /// Patterns with as many items.
    Items(&'t [Pattern], &'t [Value]),
    /// Patterns, of which the first takes one of the elements from an index on.
    Choose(&'t [Pattern], Vec<&'t Value>, usize),
    /// Patterns, of which the first takes one of the pairs from an index on.
    ChoosePair(&'t [MapletPattern], Vec<&'t (Value, Value)>, usize),
    /// Patterns, of which the first takes a front of at least so many items.
    Split(&'t [Pattern], &'t [Value], usize),
}

/// What a pattern asks of its value.
#[derive(Drop)]
pub(crate) enum Next<'t> {
    /// It does not match.
    Fails,
    /// It matches, and binds nothing.
    Holds,
    /// It matches where the next value that is given is this one.
    Compares(Subject<'t>),
    /// It matches, and binds a name.
    Binds(Name, Subject<'t>),
    /// It matches where this does.
    Becomes(Todo<'t>),
}
