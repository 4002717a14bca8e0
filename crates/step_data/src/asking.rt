// What a thread asks.

use crate::assigning::Assigning;
use crate::calling::{Calling, Old};
use crate::class_making::ClassMaking;
use crate::making::Creating;
use eval_data::Flow;
use run_journal::Write;
use vdm_kinds::{OpRef, Place, VarRef};
use vdm_values::{Slot, SlotList, Value, ValueList};

/// What a thread asks. It says which question that is, and what is done with the answer.
#[derive(Drop)]
pub enum Asking<'t> {
    /// A class object is made of its slots; then those of the classes behind it, and the expression.
    Class(Box<ClassMaking<'t>>),
    /// A call is asked for; the locals are those of the node that calls.
    Request(Box<Calling<'t>>),
    /// A call is to begin.
    Activation(Box<Calling<'t>>),
    /// A variable is read that stands with `~` in `post`; those from this number on follow.
    Before(Box<Calling<'t>>, Old, usize),
    /// A call is to end, with what comes of it.
    Finish(u32, OpRef, Flow),
    /// A variable of the object of this number is read.
    Read(u32, VarRef),
    /// A variable of the object of this number is written, for the statement at the place.
    Write(u32, VarRef, Value, Place),
    /// These variables of the object of this number are written together, for the statement at the place.
    WriteTogether(u32, Vec<Write>, Place),
    /// A variable is read, a part of which is to be changed.
    Old(Box<Assigning<'t>>, u32, VarRef),
    /// An object is made of these slots.
    New(Box<Creating>, SlotList),
    /// These values are printed, one after another.
    Print(ValueList),
    /// The node at the place asks for the time.
    Time(Place),
    /// Main ends with this.
    End(Slot),
}
