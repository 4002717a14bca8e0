// The stack of a thread.

ghost use Rattle.std.specs.Prelude.{◌≡◌, []};
ghost use Rattle.step_data.specs.Declarations.{declared_of};
ghost use Rattle.eval_data.specs.Parts.{nest_of};
ghost use Rattle.node_meaning.specs.Envs.{no_nest};

use eval_data::Nest;
use spec_table::ClassTable;
use std::alloc::Global;
use step_data::{Around, Declared, Level};
use vdm_kinds::Name;
use vdm_values::Slot;

/// What a thread keeps while it acts.
pub struct Stack<'t> {
    pub table: &'t ClassTable,
    /// What waits for what comes of the parts that are entered, the outermost first.
    pub levels: Vec<Level<'t>>,
    /// The names that are bound where the thread stands, the newest last.
    pub locals: Vec<(Name, Slot)>,
    /// What stands round the node where it stands.
    pub around: Around<'t>,
    /// The units that are left.
    pub fuel: u64,
}

// A derived drop would be proved again in each crate that drops a stack.
impl<'t> Drop for Stack<'t> {
    fn drop(self) {
        let Stack {
            table: _,
            levels: _,
            locals: _,
            around: _,
            fuel: _,
        } = self;
    }
}

impl<'t> Stack<'t> {
    /// Nothing waits, and no name is bound.
    pub fn new(alloc: Global, table: &'t ClassTable, fuel: u64) -> Stack<'t>
        ensures table { result.table ≡ table.entry }
        ensures levels { result.levels.items ≡ [] }
        ensures locals { result.locals.items ≡ [] }
        ensures nest { nest_of result.around.nest ≡ no_nest }
        ensures declared { declared_of result.around.declared ≡ [] }
        ensures fuel { result.fuel ≡ fuel }
    {
        let around = Around {
            nest: Nest::none(),
            declared: Declared::none(),
        };
        Stack {
            table,
            levels: Vec::new(alloc),
            locals: Vec::new(alloc),
            around,
            fuel,
        }
    }
}
