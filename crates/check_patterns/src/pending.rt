// Patterns that are still to be matched.

use crate::local_form::LocalForm;
use expr_tree::{MapletPattern, Pattern};
use type_forms::Form;

/// Patterns that are still to be matched, each with the form of what it is matched with.
#[derive(Drop)]
pub(crate) enum Pending<'t> {
    /// One pattern.
    One(Form, &'t Box<Pattern>),
    /// All of one form.
    Each(Form, &'t [Pattern]),
    /// The parts of a tuple of this form: the number of all, and behind how many these stand.
    Parts(Form, usize, usize, &'t [Pattern]),
    /// Each of its own form, from the number on.
    Fields(Vec<Form>, usize, &'t [Pattern]),
    /// Keys of the first form, and values of the second.
    Maplets(Form, Form, &'t [MapletPattern]),
}

/// What is bound so far, and what is still to be matched; what comes next is the last.
#[derive(Drop)]
pub(crate) struct Binding<'t> {
    pub(crate) found: Vec<LocalForm>,
    pub(crate) pending: Vec<Pending<'t>>,
}
