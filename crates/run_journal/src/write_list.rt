// Variables that are written together.

ghost use Rattle.std.specs.Prelude.{◌≡◌};

use crate::write::Write;
use std::marker::Model;

/// Variables and the values that they get, in the order in which they are written.
#[derive(Debug, Drop)]
pub struct WriteList {
    items: Vec<Write>,
}

impl Model for WriteList {
    ghost use Rattle.std.specs.Prelude.{List};
    ghost use Rattle.std.specs.Coded.{coded_list};
    ghost use Rattle.run_journal.specs.declared.write.Write.{Write};
    ghost use Rattle.run_journal.specs.contracts.write.Write as write;

    ghost Value = { List Write };

    ghost coded = { coded_list write.the_row.coded };

    ghost view = { λ a. a.items.items };
}

impl WriteList {
    /// The list of these items.
    pub fn from_vec(items: Vec<Write>) -> WriteList
        ensures { result ≡ items.items }
    {
        WriteList { items }
    }

    /// The items in order.
    pub fn as_slice(&self) -> &[Write]
        ensures { result.now ≡ self.now }
    {
        self.items.as_slice()
    }

    /// The items in order, owned.
    pub fn into_vec(self) -> Vec<Write>
        ensures { result.items ≡ self }
    {
        let WriteList { items } = self;
        items
    }
}

impl PartialEq for WriteList {
    ghost use Rattle.abstract_syntax.specs.SameBy.{same_by, same_by-laws};
    ghost use Rattle.std.specs.Coded.{coded_list};
    ghost use Rattle.run_journal.specs.contracts.write.Write as write;

    ghost eq = { same_by (coded_list write.the_row.coded) };

    ghost laws = { same_by-laws (coded_list write.the_row.coded) };

    #[tactic(auto, using(abstract_syntax::specs::SameBy::sameness))]
    fn eq(&self, other: &WriteList) -> bool {
        self.items == other.items
    }
}

impl Eq for WriteList {
    ghost use Rattle.abstract_syntax.specs.SameBy.{same_by-equivalence};
    ghost use Rattle.std.specs.Coded.{coded_list};
    ghost use Rattle.run_journal.specs.contracts.write.Write as write;

    ghost laws = { same_by-equivalence (coded_list write.the_row.coded) };
}
