// A list of values, which clauses see as a list.

ghost use Rattle.std.specs.Prelude.{◌≡◌, IfOk, IsTrue, ◌↔◌, length, []};

use crate::value::{Value, copy_values};
use std::alloc::Global;
use std::marker::Model;
use vdm_kinds::OutOfMemory;

/// A list of values.
#[derive(Debug, Drop)]
pub struct ValueList {
    values: Vec<Value>,
}

impl Model for ValueList {
    ghost use Rattle.std.specs.Prelude.{List};
    ghost use Rattle.abstract_syntax.specs.Values.{ValueTree};
    ghost use Rattle.abstract_syntax.specs.ValueCode.{value_code};
    ghost use Rattle.std.specs.Coded.{coded_list};

    ghost Value = { List ValueTree };

    ghost coded = { coded_list value_code };

    ghost view = { λ list. list.values.items };
}

impl ValueList {
    /// The list of these values; no memory is taken.
    pub fn from_vec(values: Vec<Value>) -> ValueList
        ensures { result ≡ values.items }
    {
        ValueList { values }
    }

    /// The values in order.
    pub fn as_slice(&self) -> &[Value]
        ensures { result.now ≡ self.now }
    {
        self.values.as_slice()
    }

    /// The values, taken out; no memory is taken.
    pub fn into_vec(self) -> Vec<Value>
        ensures { result.items ≡ self }
    {
        self.values
    }

    /// How many values there are.
    pub fn len(&self) -> usize
        ensures { result ≡ length self.now }
    {
        self.values.len()
    }

    /// Whether there are no values.
    pub fn is_empty(&self) -> bool
        ensures { IsTrue result ↔ self.now ≡ [] }
    {
        self.values.is_empty()
    }

    /// A list of its own of the same values.
    pub fn copy(&self, alloc: Global) -> Result<ValueList, OutOfMemory>
        ensures { IfOk result (λ list. list ≡ self.now) }
    {
        let values = copy_values(self.values.as_slice(), alloc)?;
        Ok(ValueList { values })
    }
}

impl PartialEq for ValueList {
    ghost use Rattle.std.specs.Coded.{coded_list};
    ghost use Rattle.abstract_syntax.specs.ValueCode.{value_code};
    ghost use Rattle.abstract_syntax.specs.SameBy.{same_by, same_by-laws};

    ghost eq = { same_by (coded_list value_code) };

    ghost laws = { same_by-laws (coded_list value_code) };

    #[tactic(auto, using(abstract_syntax::specs::SameBy::sameness))]
    fn eq(&self, other: &ValueList) -> bool {
        self.values == other.values
    }
}

impl Eq for ValueList {
    ghost use Rattle.std.specs.Coded.{coded_list};
    ghost use Rattle.abstract_syntax.specs.ValueCode.{value_code};
    ghost use Rattle.abstract_syntax.specs.SameBy.{same_by-equivalence};

    ghost laws = { same_by-equivalence (coded_list value_code) };
}
