// The answers that a thread was given.

ghost use Rattle.std.specs.Prelude.{◌≡◌};

use crate::answer::Answer;
use std::marker::Model;

/// Answers in the order in which they were given.
#[derive(Debug, Drop)]
pub struct AnswerList {
    items: Vec<Answer>,
}

impl Model for AnswerList {
    ghost use Rattle.std.specs.Prelude.{List};
    ghost use Rattle.std.specs.Coded.{coded_list};
    ghost use Rattle.run_journal.specs.declared.answer.Answer.{Answer};
    ghost use Rattle.run_journal.specs.contracts.answer.Answer as answer;

    ghost Value = { List Answer };

    ghost coded = { coded_list answer.the_row.coded };

    ghost view = { λ a. a.items.items };
}

impl AnswerList {
    /// The list of these items.
    pub fn from_vec(items: Vec<Answer>) -> AnswerList
        ensures { result ≡ items.items }
    {
        AnswerList { items }
    }

    /// The items in order.
    pub fn as_slice(&self) -> &[Answer]
        ensures { result.now ≡ self.now }
    {
        self.items.as_slice()
    }

    /// The items in order, owned.
    pub fn into_vec(self) -> Vec<Answer>
        ensures { result.items ≡ self }
    {
        let AnswerList { items } = self;
        items
    }
}
