// The threads that wait where nothing can go on.

ghost use Rattle.std.specs.Prelude.{◌≡◌};

use crate::blocked::Blocked;
use std::marker::Model;

/// Threads that wait, by their birth.
#[derive(Debug, Drop)]
pub struct BlockedList {
    items: Vec<Blocked>,
}

impl Model for BlockedList {
    ghost use Rattle.std.specs.Prelude.{List};
    ghost use Rattle.std.specs.Coded.{coded_list};
    ghost use Rattle.report_texts.specs.declared.blocked.Blocked.{Blocked};
    ghost use Rattle.report_texts.specs.contracts.blocked.Blocked as blocked;

    ghost Value = { List Blocked };

    ghost coded = { coded_list blocked.the_row.coded };

    ghost view = { λ b. b.items.items };
}

impl BlockedList {
    /// The list of these threads.
    pub fn from_vec(items: Vec<Blocked>) -> BlockedList
        ensures { result ≡ items.items }
    {
        BlockedList { items }
    }

    /// The threads in order.
    pub fn as_slice(&self) -> &[Blocked]
        ensures { result.now ≡ self.now }
    {
        self.items.as_slice()
    }

    /// The threads in order, owned.
    pub fn into_vec(self) -> Vec<Blocked>
        ensures { result.items ≡ self }
    {
        let BlockedList { items } = self;
        items
    }
}
