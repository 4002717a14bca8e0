// What a host function answers.

use vdm_values::Value;

/// The answer of a host function to its arguments.
#[derive(Debug, Drop)]
pub enum HostAnswer {
    Given(Value),
    /// The function does not take these arguments.
    Refused,
}

impl PartialEq for HostAnswer {
    ghost use Rattle.abstract_syntax.specs.SameBy.{same_by, same_by-laws};
    ghost use Rattle.run_journal.specs.contracts.host_answer.HostAnswer as host_answer;

    ghost eq = { same_by host_answer.the_row.coded };

    ghost laws = { same_by-laws host_answer.the_row.coded };

    #[tactic(auto, using(abstract_syntax::specs::SameBy::sameness))]
    fn eq(&self, other: &HostAnswer) -> bool {
        match self {
            HostAnswer::Given(value) => matches!(other, HostAnswer::Given(given) if value == given),
            HostAnswer::Refused => matches!(other, HostAnswer::Refused),
        }
    }
}

impl Eq for HostAnswer {
    ghost use Rattle.abstract_syntax.specs.SameBy.{same_by-equivalence};
    ghost use Rattle.run_journal.specs.contracts.host_answer.HostAnswer as host_answer;

    ghost laws = { same_by-equivalence host_answer.the_row.coded };
}
