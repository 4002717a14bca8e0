// Answers in requests.

use crate::desk::Desk;
use row_words::Line;
use run_journal::{Answer, HostAnswer};

impl Desk {
    /// The answer that stands next.
    pub(crate) fn answer_by(&mut self, line: &mut Line<'_>) -> Answer {
        match line.word() {
            "done" => Answer::Done,
            "object" => Answer::Object(line.number()),
            "slot" => Answer::Slot(self.slot(line)),
            "refused" => Answer::Refused,
            "inner" => Answer::Inner(line.number()),
            "given" => Answer::Host(HostAnswer::Given(self.value(line))),
            "host-refused" => Answer::Host(HostAnswer::Refused),
            "ticks" => Answer::Ticks(line.whole()),
            _ => {
                line.refuse();
                Answer::Done
            }
        }
    }
}
