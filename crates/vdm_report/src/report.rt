// What a call of the program gives.

ghost use Rattle.std.specs.Prelude.{◌≡◌, []};
ghost use Rattle.vdm_report.specs.Ends.{status_of};

use crate::end::End;
use run_journal::EntryList;
use std::alloc::Global;

/// What a call of the program gives back, beside what it wrote.
#[derive(Debug, Drop)]
pub struct Report {
    /// The exit status, which is the end's.
    pub status: u8,
    pub end: End,
    /// The entries that the run made, in order; those of a run that could not be reported stay.
    pub journal: EntryList,
    /// Whether the words asked for the log.
    pub log: bool,
}

impl Report {
    /// The report of a call whose run made these entries.
    pub fn new(end: End, journal: EntryList, log: bool) -> Report
        ensures status { result.status ≡ status_of end }
        ensures end { result.end ≡ end }
        ensures journal { result.journal ≡ journal }
        ensures log { result.log ≡ log }
    {
        Report {
            status: end.status(),
            end,
            journal,
            log,
        }
    }

    /// The report of a call in which nothing ran.
    pub fn without_run(alloc: Global, end: End, log: bool) -> Report
        ensures status { result.status ≡ status_of end }
        ensures end { result.end ≡ end }
        ensures journal { result.journal ≡ [] }
        ensures log { result.log ≡ log }
    {
        Report::new(end, EntryList::new(alloc), log)
    }

    /// The report of the same call, which ends so instead.
    pub(crate) fn ending(self, end: End) -> Report
        ensures status { result.status ≡ status_of end }
        ensures end { result.end ≡ end }
        ensures journal { result.journal ≡ self.journal }
        ensures log { result.log ≡ self.log }
    {
        Report::new(end, self.journal, self.log)
    }

    /// The exit status alone.
    pub fn into_status(self) -> u8
        ensures { result ≡ self.status }
    {
        self.status
    }
}
