// One variable that is written.

use vdm_kinds::VarRef;
use vdm_values::Value;

/// A variable and the value that it gets.
#[derive(Debug, Drop)]
pub struct Write {
    pub var: VarRef,
    pub value: Value,
}

impl PartialEq for Write {
    ghost use Rattle.abstract_syntax.specs.SameBy.{same_by, same_by-laws};
    ghost use Rattle.run_journal.specs.contracts.write.Write as write;

    ghost eq = { same_by write.the_row.coded };

    ghost laws = { same_by-laws write.the_row.coded };

    #[tactic(auto, using(abstract_syntax::specs::SameBy::sameness))]
    fn eq(&self, other: &Write) -> bool {
        self.var == other.var && self.value == other.value
    }
}

impl Eq for Write {
    ghost use Rattle.abstract_syntax.specs.SameBy.{same_by-equivalence};
    ghost use Rattle.run_journal.specs.contracts.write.Write as write;

    ghost laws = { same_by-equivalence write.the_row.coded };
}
