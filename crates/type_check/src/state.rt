// What is still to be done.

use check_named::handed::check_frames::{Frame, Next};
use type_forms::Form;

/// What is still to be done: what comes next, and what is done with its form and the forms that follow from it.
#[derive(Drop)]
pub(crate) struct State<'t> {
    pub(crate) next: Next<'t>,
    /// The topmost is the last.
    pub(crate) frames: Vec<Frame<'t>>,
}

/// What a turn comes to.
#[derive(Drop)]
pub(crate) enum Turn<'t> {
    /// The whole has this form.
    Ends(Form),
    Goes(State<'t>),
}
