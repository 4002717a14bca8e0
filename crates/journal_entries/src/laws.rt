// Laws of threads and of the entries that are made, for proofs that rest on them. Each call does nothing.

ghost use Rattle.journal_entries.specs.Laws.{EveryEntryGivesBack, EveryEntryIsMade, MadeWhereFits, ThreadsAreToldApart};

/// Every entry that is made gives back its thread, its question and its answer, and stands where its deed belongs.
pub fn every_entry_gives_back()
    ensures { EveryEntryGivesBack }
{}

/// A question and an answer make an entry exactly where the answer fits the question.
pub fn made_where_fits()
    ensures { MadeWhereFits }
{}

/// Every entry that stands where its deed belongs is made of its own thread, question and answer.
pub fn every_entry_is_made()
    ensures { EveryEntryIsMade }
{}

/// The test of threads in the definitions of a list's parts is true exactly of one thread.
pub fn threads_are_told_apart()
    ensures { ThreadsAreToldApart }
{}
