// What a name stands for.

ghost use Rattle.std.specs.Prelude.{◌≡◌, ◌∷◌, ◌++◌, [], None, take, length, map, OnOk, option_map};
ghost use Rattle.pattern_meaning.specs.Bindings.{value_in};
ghost use Rattle.patterns.specs.Places.{subject_at};
ghost use Rattle.patterns.specs.Todos.{subject_tree};
ghost use Rattle.patterns.specs.Search.{binding_of};
ghost use Rattle.patterns.specs.declared.bound.Bound.{Bound as BoundName};

use crate::bound::Bound;
use crate::names::Names;
use crate::subject::Subject;
use std::alloc::Global;
use std::collections::HashMap;
use vdm_kinds::{Name, OutOfMemory};

impl<'t> Names<'t> {
    /// No names.
    #[tactic(auto, unfolding(crate::specs::Search::binding_of))]
    pub(crate) fn new(alloc: Global) -> Names<'t>
        ensures { binding_of result ≡ [] }
    {
        Names {
            bounds: Vec::new(alloc),
            places: HashMap::new(alloc),
        }
    }

    /// How many names are bound.
    #[tactic(auto, unfolding(crate::specs::Search::binding_of))]
    pub(crate) fn len(&self) -> usize
        ensures { result ≡ length (binding_of self.now) }
    {
        self.bounds.len()
    }

    /// What a name stands for.
    #[tactic(auto, unfolding(crate::specs::Search::binding_of))]
    pub(crate) fn find(&self, name: Name) -> Option<Subject<'t>>
        ensures { option_map subject_tree result ≡ value_in (binding_of self.now) name }
    {
        let Some(place) = self.places.get(&name.0) else {
            return None;
        };
        at(self.bounds.as_slice(), *place, name)
    }

    /// One more name, which is new.
    #[tactic(auto, unfolding(crate::specs::Search::binding_of))]
    pub(crate) fn push(&mut self, name: Name, subject: Subject<'t>) -> Result<(), OutOfMemory>
        requires { value_in (binding_of self.old) name ≡ None }
        ensures { OnOk result (binding_of self.new ≡ binding_of self.old ++ (name, subject_tree subject.entry) ∷ []) }
    {
        let place = self.bounds.len();
        // With the room made first nothing can fail between the place and the name.
        self.bounds.reserve(1)?;
        self.places.insert(name.0, place)?;
        self.bounds.push_reserved(Bound { name, subject });
        Ok(())
    }

    /// Only the first names stay.
    #[tactic(auto, using(crate::proofs::Lists::cutting), unfolding(crate::specs::Search::binding_of))]
    pub(crate) fn cut(&mut self, kept: usize)
        ensures { binding_of self.new ≡ take kept (binding_of self.old) }
    {
        self.bounds.truncate(kept);
    }

    /// The names in order.
    #[tactic(auto, unfolding(crate::specs::Search::binding_of))]
    pub(crate) fn as_slice(&self) -> &[Bound<'t>]
        ensures { map (λ (b : BoundName). (b.name, subject_tree b.subject)) result.now ≡ binding_of self.now }
    {
        self.bounds.as_slice()
    }
}

// What stands at the place, if it is the name.
fn at<'t>(bounds: &[Bound<'t>], place: usize, name: Name) -> Option<Subject<'t>>
    ensures { result ≡ subject_at bounds.now place name }
{
    let Some(bound) = bounds.get(place) else {
        return None;
    };
    if bound.name.0 == name.0 {
        Some(bound.subject)
    } else {
        None
    }
}
