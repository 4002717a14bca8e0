// What is still to be done.

use stmt_kinds::handed::stmt_pending::{Next, Pending};

/// What is still to be done: what comes next, and what is checked behind it.
#[derive(Drop)]
pub(crate) struct State<'t> {
    pub(crate) next: Next<'t>,
    /// The topmost is the last.
    pub(crate) stack: Vec<Pending<'t>>,
}

/// What a turn comes to.
#[derive(Drop)]
pub(crate) enum Turn<'t> {
    Ends,
    Goes(State<'t>),
}
