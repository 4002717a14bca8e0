// The choices of one value of each of several lists, one after the other.

ghost use Rattle.std.specs.Prelude.{◌≡◌, IfOk, MatchOption, [], ◌∷◌, map, drop};
ghost use Rattle.bind_choices.specs.Choices.{choices_of};

use crate::indices::{all_have_values, step, values_at};
use std::alloc::Global;
use std::marker::Model;
use vdm_kinds::OutOfMemory;
use vdm_values::{Value, ValueList};

/// The choices of one value of each list that are left, in order: that of the first list varies slowest.
pub struct Choices {
    lists: Vec<ValueList>,
    // Where the next choice takes the value of each list.
    indices: Vec<usize>,
    has_next: bool,
}

impl Model for Choices {
    ghost use Rattle.std.specs.Prelude.{◌≡◌, List, true};
    ghost use Rattle.std.specs.Coded.{coded_list};
    ghost use Rattle.abstract_syntax.specs.Values.{ValueTree};
    ghost use Rattle.abstract_syntax.specs.ValueCode.{value_code};
    ghost use Rattle.bind_choices.specs.Choices.{choices_left, AreIndices};

    ghost Value = { List (List ValueTree) };

    ghost coded = { coded_list (coded_list value_code) };

    ghost view = { λ c. choices_left c.lists.items c.indices.items c.has_next };

    ghost invariant = { λ c. c.has_next ≡ true → AreIndices c.lists.items c.indices.items };
}

// A derived drop would be proved again in each crate that drops choices.
impl Drop for Choices {
    fn drop(self) {
        let Choices {
            lists: _,
            indices: _,
            has_next: _,
        } = self;
    }
}

impl Choices {
    /// All choices of the lists. There is none where a list is empty, and one of no values where there is no list.
    pub fn of(alloc: Global, lists: Vec<ValueList>) -> Result<Choices, OutOfMemory>
        ensures { IfOk result (λ choices. choices ≡ choices_of lists.items) }
    {
        let has_next = all_have_values(lists.as_slice());
        let indices = vec![in alloc; 0; lists.len()]?;
        Ok(Choices {
            lists,
            indices,
            has_next,
        })
    }

    /// The values of the next choice, one of each list; none where no choice is left.
    pub fn next(&self, alloc: Global) -> Result<Option<Vec<&Value>>, OutOfMemory>
        ensures { IfOk result (λ found. MatchOption found (self.now ≡ []) (λ values. self.now ≡ map (λ v. v.now) values.items ∷ drop 1 self.now)) }
    {
        if !self.has_next {
            return Ok(None);
        }
        let values = values_at(alloc, self.lists.as_slice(), self.indices.as_slice())?;
        Ok(Some(values))
    }

    /// Goes on to the choice behind the next one; no memory is taken.
    pub fn advance(&mut self)
        ensures { self.new ≡ drop 1 self.old }
    {
        if self.has_next {
            self.has_next = step(self.lists.as_slice(), self.indices.as_mut_slice());
        }
    }
}
