// What a walk has still to come to, as a stack.

ghost use Rattle.std.specs.Prelude.{◌≡◌, ◌++◌, [], OnOk, MatchOption};
ghost use Rattle.old_names.specs.Walks.{coming, waiting_olds};

use crate::part::Part;
use std::alloc::Global;
use vdm_kinds::{Name, OutOfMemory};

/// What is still to come: a variable with `~`, or a part that has not been looked into.
#[derive(Clone, Copy)]
pub(crate) enum Waiting<'t> {
    Found(Name),
    Within(Part<'t>),
}

/// What a walk has still to come to; what comes next is last.
#[derive(Drop)]
pub(crate) struct Walk<'t> {
    waiting: Vec<Waiting<'t>>,
}

#[tactic(auto, unfolding(crate::specs::Walks::coming))]
impl<'t> Walk<'t> {
    /// A walk with nothing to come.
    pub(crate) fn new(alloc: Global) -> Walk<'t>
        ensures { coming result ≡ [] }
    {
        Walk {
            waiting: Vec::new(alloc),
        }
    }

    /// This comes next.
    pub(crate) fn push(&mut self, waiting: Waiting<'t>) -> Result<(), OutOfMemory>
        ensures { OnOk result (coming self.new ≡ waiting_olds waiting.entry ++ coming self.old) }
    {
        Ok(self.waiting.push(waiting)?)
    }

    /// What comes next, taken out.
    pub(crate) fn next(&mut self) -> Option<Waiting<'t>>
        ensures { MatchOption result (coming self.old ≡ []) (λ w. coming self.old ≡ waiting_olds w ++ coming self.new) }
    {
        self.waiting.pop()
    }
}
