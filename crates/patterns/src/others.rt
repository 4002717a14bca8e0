// The choices that wait.

ghost use Rattle.std.specs.Prelude.{◌≡◌, ◌∷◌, [], OnOk, MatchOption};
ghost use Rattle.patterns.specs.Search.{to_come, choice_of, choices_in};

use crate::work::Work;
use std::alloc::Global;
use vdm_kinds::OutOfMemory;
use vdm_values::Value;

/// Another choice, for where those made behind it come to nothing.
#[derive(Drop)]
pub(crate) struct Other<'t> {
    pub(crate) work: Work<'t>,
    /// The values that are given for it.
    pub(crate) given: &'t [Value],
    /// How many names keep what they stand for.
    pub(crate) kept: usize,
}

/// Other choices, of which the last one is tried first.
#[derive(Drop)]
pub(crate) struct Others<'t> {
    others: Vec<Other<'t>>,
}

impl<'t> Others<'t> {
    /// None.
    #[tactic(auto, unfolding(crate::specs::Search::choices_in))]
    pub(crate) fn new(alloc: Global) -> Others<'t>
        ensures { choices_in result ≡ [] }
    {
        Others {
            others: Vec::new(alloc),
        }
    }

    /// This one is tried first.
    #[tactic(auto, unfolding(crate::specs::Search::choices_in))]
    pub(crate) fn push(
        &mut self,
        work: Work<'t>,
        given: &'t [Value],
        kept: usize,
    ) -> Result<(), OutOfMemory>
        ensures { OnOk result (choices_in self.new ≡ record { todos = to_come work.entry; given = given.now; kept = kept } ∷ choices_in self.old) }
    {
        Ok(self.others.push(Other { work, given, kept })?)
    }

    /// The one that is tried first, taken out.
    #[tactic(auto, unfolding(crate::specs::Search::choices_in))]
    pub(crate) fn pop(&mut self) -> Option<Other<'t>>
        ensures { MatchOption result ((choices_in self.old ≡ []) × (choices_in self.new ≡ [])) (λ o. choices_in self.old ≡ choice_of o ∷ choices_in self.new) }
    {
        self.others.pop()
    }
}
