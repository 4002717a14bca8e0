// What an entry tells.

use crate::host_answer::HostAnswer;
use crate::write_list::WriteList;
use vdm_kinds::{Name, OpRef, Place, RunFault, VarRef};
use vdm_values::{Slot, SlotList, ValueList};

/// What a thread did at an object. The object stands in the entry.
#[derive(Debug, Drop)]
pub enum Deed {
    /// A class object is made, with the class's own static variables.
    Class {
        class: Name,
        values: SlotList,
    },
    /// An object is made, with the variables of its class's layout.
    New {
        class: Name,
        values: SlotList,
    },
    /// A call of the operation is asked for.
    Req {
        op: OpRef,
    },
    /// The call was permitted, and its body begins.
    Act {
        op: OpRef,
    },
    /// Permission failed with the fault of number `inner`, and no body begins.
    ActFault {
        op: OpRef,
        inner: u32,
    },
    /// The body of the call is over.
    Fin {
        op: OpRef,
    },
    Read {
        var: VarRef,
        value: Slot,
    },
    /// Variables are written together. Refused where an instance invariant would miss: then none is.
    Write {
        writes: WriteList,
        refused: bool,
    },
    /// The object's thread is started. Refused where it was started before.
    Start {
        refused: bool,
    },
    Print {
        text: ValueList,
    },
    /// A host function is called.
    Host {
        op: OpRef,
        args: ValueList,
        answer: HostAnswer,
    },
    /// The clock is read, in ticks.
    Time {
        ticks: u64,
    },
    /// The thread is over, with its value where it has one.
    End {
        value: Slot,
    },
    /// The thread failed at `place`, with the value that left it where that is the fault.
    Fail {
        fault: RunFault,
        exit: Slot,
        place: Place,
    },
    /// The clock moves on by one tick.
    Tick,
    /// The object's periodic thread begins again: `k` releases came before.
    Release {
        k: u32,
    },
}
