// What a thread asks of a run.

use crate::write_list::WriteList;
use vdm_kinds::{Name, OpRef, Place, RunFault, VarRef};
use vdm_values::{Slot, SlotList, ValueList};

/// What a thread asks, with the number of the object that it asks where the thread knows one.
#[derive(Debug, Drop)]
pub enum Question {
    /// To make the object of a class.
    Class {
        object: u32,
        class: Name,
        values: SlotList,
    },
    /// To make an object: the answer has its number.
    New {
        class: Name,
        values: SlotList,
    },
    /// To call the operation.
    Req {
        object: u32,
        op: OpRef,
    },
    /// To begin the body of a call that was asked for.
    Act {
        object: u32,
        op: OpRef,
    },
    /// To end the body of a call.
    Fin {
        object: u32,
        op: OpRef,
    },
    Read {
        object: u32,
        var: VarRef,
    },
    /// To write variables together.
    Write {
        object: u32,
        writes: WriteList,
    },
    /// To start the object's thread.
    Start {
        object: u32,
    },
    Print {
        text: ValueList,
    },
    /// To call a host function.
    Host {
        object: u32,
        op: OpRef,
        args: ValueList,
    },
    /// To read the clock.
    Time,
    /// To be over, with a value or none.
    End {
        value: Slot,
    },
    /// To fail.
    Fail {
        fault: RunFault,
        exit: Slot,
        place: Place,
    },
    /// To move the clock on.
    Tick,
    /// To begin the object's periodic thread again.
    Release {
        object: u32,
        k: u32,
    },
}
