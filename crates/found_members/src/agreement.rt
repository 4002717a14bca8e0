// What several superclasses agree on.

ghost use Rattle.std.specs.Prelude.{◌≡◌};

use crate::ways::{Key, key_of};
use class_meaning::{Ask, Found};
use std::alloc::Global;
use std::collections::HashMap;
use vdm_kinds::OutOfMemory;

/// What several superclasses agree on, for each way in which any of their members is asked for. No way is listed twice.
#[derive(Drop)]
pub(crate) struct Agreement {
    pub(crate) ways: Vec<Ask>,
    answers: HashMap<Key, Found>,
}

impl Agreement {
    ghost use Rattle.std.specs.Prelude.{◌++◌, ◌∷◌, [], OnOk, unwrap_or};
    ghost use Rattle.found_members.specs.Ways.{is_among, unlisted};
    ghost use Rattle.found_members.specs.Agreements.{Answers, listed, answered};
    ghost use Rattle.class_meaning.specs.declared.ask.Ask.{Ask};
    ghost use Rattle.class_meaning.specs.declared.found.Found.{Found};
    ghost use Rattle.class_meaning.specs.declared.found.Found.TheVariants.{Nothing};

    /// No ways.
    pub(crate) fn none(alloc: Global) -> Agreement
        ensures answers { (f : Ask → Found) → Answers result f }
        ensures ways { result.ways.items ≡ [] }
    {
        Agreement {
            ways: Vec::new(alloc),
            answers: HashMap::new(alloc),
        }
    }

    /// Whether a way is there.
    pub(crate) fn has(&self, way: Ask) -> bool
        ensures { (f : Ask → Found) → Answers self.now f → result ≡ is_among self.now.ways.items way }
    {
        self.answers.contains_key(&key_of(way))
    }

    /// Adds a way, and what is found so.
    pub(crate) fn add(&mut self, way: Ask, found: Found) -> Result<(), OutOfMemory>
        ensures answers { OnOk result ((f : Ask → Found) → Answers self.old f → found ≡ f way → Answers self.new f) }
        ensures ways { OnOk result (self.new.ways.items ≡ self.old.ways.items ++ way ∷ []) }
    {
        self.ways.push(way)?;
        self.answers.insert(key_of(way), found)?;
        Ok(())
    }

    fn listed(&self, ask: Ask) -> Option<Found>
        ensures { result ≡ listed self.now ask }
    {
        self.answers.get(&key_of(ask)).copied()
    }

    fn unlisted(&self, ask: Ask) -> Found
        ensures { result ≡ unlisted (λ way. unwrap_or (listed self.now way) Nothing) ask }
    {
        match ask {
            Ask::Called(name, _) => self.listed(Ask::ByName(name)).unwrap_or(Found::Nothing),
            Ask::AsType(_) | Ask::ByName(_) => Found::Nothing,
        }
    }

    /// What is found. With a number of arguments that no member has, the name alone is asked for.
    pub(crate) fn answer(&self, ask: Ask) -> Found
        ensures { result ≡ answered self.now ask }
    {
        match self.listed(ask) {
            Some(found) => found,
            None => self.unlisted(ask),
        }
    }
}
