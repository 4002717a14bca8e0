// A list of names with their values, which clauses see as a list.

ghost use Rattle.std.specs.Prelude.{◌≡◌, length};

use std::marker::Model;
use vdm_kinds::Name;
use vdm_values::Value;

/// Names with their values.
#[derive(Debug, Drop)]
pub struct BindList {
    pairs: Vec<(Name, Value)>,
}

impl Model for BindList {
    ghost use Rattle.std.specs.Coded.{coded_list, coded×};
    ghost use Rattle.abstract_syntax.specs.ValueCode.{value_code};
    ghost use Rattle.pattern_meaning.specs.Bindings.{Binding};
    ghost use Rattle.vdm_kinds.specs.contracts.name.Name as name;

    ghost Value = { Binding };

    ghost coded = { coded_list (coded× name.the_row.coded value_code) };

    ghost view = { λ list. list.pairs.items };
}

impl BindList {
    /// The list of these pairs; no memory is taken.
    pub fn from_vec(pairs: Vec<(Name, Value)>) -> BindList
        ensures { result ≡ pairs.items }
    {
        BindList { pairs }
    }

    /// The pairs in order.
    pub fn as_slice(&self) -> &[(Name, Value)]
        ensures { result.now ≡ self.now }
    {
        self.pairs.as_slice()
    }

    /// The pairs, taken out; no memory is taken.
    pub fn into_vec(self) -> Vec<(Name, Value)>
        ensures { result.items ≡ self }
    {
        self.pairs
    }

    /// How many pairs there are.
    pub fn len(&self) -> usize
        ensures { result ≡ length self.now }
    {
        self.pairs.len()
    }
}
