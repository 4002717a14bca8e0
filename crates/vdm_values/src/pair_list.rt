// A list of pairs of values, which clauses see as a list.

ghost use Rattle.std.specs.Prelude.{◌≡◌, IfOk, IsTrue, ◌↔◌, length, []};

use crate::value::{Value, are_equal_pairs, copy_pairs};
use std::alloc::Global;
use std::marker::Model;
use vdm_kinds::OutOfMemory;

/// A list of pairs, each a key and its value.
#[derive(Debug, Drop)]
pub struct PairList {
    pairs: Vec<(Value, Value)>,
}

impl Model for PairList {
    ghost use Rattle.std.specs.Prelude.{List};
    ghost use Rattle.abstract_syntax.specs.Values.{ValueTree};
    ghost use Rattle.abstract_syntax.specs.ValueCode.{value_code};
    ghost use Rattle.std.specs.Coded.{coded_list, coded×};

    ghost Value = { List (ValueTree × ValueTree) };

    ghost coded = { coded_list (coded× value_code value_code) };

    ghost view = { λ list. list.pairs.items };
}

impl PairList {
    /// The list of these pairs; no memory is taken.
    pub fn from_vec(pairs: Vec<(Value, Value)>) -> PairList
        ensures { result ≡ pairs.items }
    {
        PairList { pairs }
    }

    /// The pairs in order.
    pub fn as_slice(&self) -> &[(Value, Value)]
        ensures { result.now ≡ self.now }
    {
        self.pairs.as_slice()
    }

    /// The pairs, taken out; no memory is taken.
    pub fn into_vec(self) -> Vec<(Value, Value)>
        ensures { result.items ≡ self }
    {
        self.pairs
    }

    /// How many pairs there are.
    pub fn len(&self) -> usize
        ensures { result ≡ length self.now }
    {
        self.pairs.len()
    }

    /// Whether there are no pairs.
    pub fn is_empty(&self) -> bool
        ensures { IsTrue result ↔ self.now ≡ [] }
    {
        self.pairs.is_empty()
    }

    /// A list of its own of the same pairs.
    pub fn copy(&self, alloc: Global) -> Result<PairList, OutOfMemory>
        ensures { IfOk result (λ list. list ≡ self.now) }
    {
        let pairs = copy_pairs(self.pairs.as_slice(), alloc)?;
        Ok(PairList { pairs })
    }
}

impl PartialEq for PairList {
    ghost use Rattle.std.specs.Coded.{coded_list, coded×};
    ghost use Rattle.abstract_syntax.specs.ValueCode.{value_code};
    ghost use Rattle.abstract_syntax.specs.SameBy.{same_by, same_by-laws};

    ghost eq = { same_by (coded_list (coded× value_code value_code)) };

    ghost laws = { same_by-laws (coded_list (coded× value_code value_code)) };

    #[tactic(auto, using(abstract_syntax::specs::SameBy::sameness))]
    fn eq(&self, other: &PairList) -> bool {
        are_equal_pairs(self.pairs.as_slice(), other.pairs.as_slice())
    }
}

impl Eq for PairList {
    ghost use Rattle.std.specs.Coded.{coded_list, coded×};
    ghost use Rattle.abstract_syntax.specs.ValueCode.{value_code};
    ghost use Rattle.abstract_syntax.specs.SameBy.{same_by-equivalence};

    ghost laws = { same_by-equivalence (coded_list (coded× value_code value_code)) };
}
