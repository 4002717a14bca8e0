// How a call of the program ends.

ghost use Rattle.std.specs.Prelude.{◌≡◌};
ghost use Rattle.vdm_report.specs.Ends.{status_of};

use report_texts::BlockedList;
use run_journal::Thread;
use vdm_kinds::{Place, RunFault, SpecFault};
use vdm_values::Slot;

/// How a call of the program ends.
#[derive(Debug, Drop)]
pub enum End {
    /// The expression has its value, or ended without one.
    Ended(Slot),
    /// The specification is accepted, with so many classes.
    Checked(u64),
    /// The run of a made specification ended with this number.
    Made {
        classes: u64,
        entries: u64,
        result: u64,
    },
    /// The specification or the expression is refused. Faulty words are `Usage`, not this.
    Refused(SpecFault),
    /// The words are no command.
    Usage,
    /// A thread failed; `exit` is the value of an exit that left it.
    Failed {
        fault: RunFault,
        exit: Slot,
        thread: Thread,
        place: Place,
    },
    /// No thread can go on, and these wait.
    Deadlock(BlockedList),
    /// The clock made so many ticks, and makes no more.
    TicksOver(u64),
    /// A read of the source failed.
    ReadFault,
    /// A write to the sink failed.
    WriteFault,
    /// The ticker failed.
    TickFault,
    /// A growth was refused.
    OutOfMemory,
    /// The journal has this many entries, and may have no more.
    JournalFull(u64),
}

impl End {
    /// The exit status of the program.
    pub fn status(&self) -> u8
        ensures { result ≡ status_of self.now }
    {
        match self {
            End::Ended(_) | End::Checked(_) | End::Made { .. } => 0,
            End::Refused(_) => 1,
            End::Usage => 2,
            End::Failed { .. } => 3,
            End::Deadlock(_) => 4,
            End::TicksOver(_) => 5,
            End::ReadFault => 6,
            End::WriteFault => 7,
            End::TickFault => 8,
            End::OutOfMemory => 9,
            End::JournalFull(_) => 10,
        }
    }
}
