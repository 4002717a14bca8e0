// The members of a class so far.

ghost use Rattle.std.specs.Prelude.{◌≡◌, OnOk};
ghost use Rattle.table_faults.specs.Known.{known_of};
ghost use Rattle.table_faults.specs.Firsts.{with_member, no_members};

use std::alloc::Global;
use std::collections::HashSet;
use vdm_kinds::{Name, OutOfMemory};

/// What of a member tells it from another of its name: functions, and so operations, may differ in how many parameters they have.
#[derive(Clone, Copy)]
pub(crate) enum Shape {
    Plain,
    Function(usize),
    Operation(usize),
}

/// The names of the members of a class so far.
#[derive(Drop)]
pub(crate) struct Seen {
    names: HashSet<u32>,
    /// Those of members that are no functions.
    no_functions: HashSet<u32>,
    /// Those of members that are no operations.
    no_operations: HashSet<u32>,
    /// With how many parameters each has.
    functions: HashSet<(u32, usize)>,
    operations: HashSet<(u32, usize)>,
}

impl Seen {
    ghost use Rattle.std.specs.Prelude.{IfOk};
    ghost use Rattle.table_faults.specs.declared.seen.Shape.TheVariants.{Plain, Function, Operation};

    /// No members.
    pub(crate) fn new(alloc: Global) -> Seen
        ensures { known_of result ≡ no_members }
    {
        Seen {
            names: HashSet::new(alloc),
            no_functions: HashSet::new(alloc),
            no_operations: HashSet::new(alloc),
            functions: HashSet::new(alloc),
            operations: HashSet::new(alloc),
        }
    }

    /// Whether an earlier member clashes with one of the name and shape.
    fn has_clash(&self, name: Name, shape: Shape) -> bool
        ensures { result ≡ known_of self.now name shape }
    {
        match shape {
            Shape::Plain => self.names.contains(&name.0),
            Shape::Function(count) => {
                self.no_functions.contains(&name.0) || self.functions.contains(&(name.0, count))
            }
            Shape::Operation(count) => {
                self.no_operations.contains(&name.0) || self.operations.contains(&(name.0, count))
            }
        }
    }

    fn add_plain(&mut self, name: Name) -> Result<(), OutOfMemory>
        ensures { OnOk result (known_of self.new ≡ with_member (known_of self.old) name Plain) }
    {
        self.names.insert(name.0)?;
        self.no_functions.insert(name.0)?;
        self.no_operations.insert(name.0)?;
        Ok(())
    }

    fn add_function(&mut self, name: Name, count: usize) -> Result<(), OutOfMemory>
        ensures { OnOk result (known_of self.new ≡ with_member (known_of self.old) name (Function count)) }
    {
        self.names.insert(name.0)?;
        self.no_operations.insert(name.0)?;
        self.functions.insert((name.0, count))?;
        Ok(())
    }

    fn add_operation(&mut self, name: Name, count: usize) -> Result<(), OutOfMemory>
        ensures { OnOk result (known_of self.new ≡ with_member (known_of self.old) name (Operation count)) }
    {
        self.names.insert(name.0)?;
        self.no_functions.insert(name.0)?;
        self.operations.insert((name.0, count))?;
        Ok(())
    }

    /// Notes a member, and tells whether an earlier one clashes with it.
    pub(crate) fn note(&mut self, name: Name, shape: Shape) -> Result<bool, OutOfMemory>
        ensures known { IfOk result (λ known. known ≡ known_of self.old name shape) }
        ensures noted { OnOk result (known_of self.new ≡ with_member (known_of self.old) name shape) }
    {
        let has_clash = self.has_clash(name, shape);
        match shape {
            Shape::Plain => self.add_plain(name)?,
            Shape::Function(count) => self.add_function(name, count)?,
            Shape::Operation(count) => self.add_operation(name, count)?,
        }
        Ok(has_clash)
    }
}
