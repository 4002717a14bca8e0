// Names, each once where it stands first.

ghost use Rattle.std.specs.Prelude.{◌≡◌, [], IfOk, OnOk};
ghost use Rattle.graph_cycles.specs.Growing.{with_node, with_nodes};
ghost use Rattle.ancestor_lines.specs.Parts.{Knows, numbers};

use std::alloc::Global;
use std::collections::HashSet;
use vdm_kinds::{Name, OutOfMemory};

/// Names in the order in which they were added, none twice, and the set of their numbers.
#[derive(Drop)]
pub(crate) struct NameSet {
    seen: HashSet<u32>,
    pub(crate) names: Vec<Name>,
}

impl NameSet {
    /// No names.
    pub(crate) fn none(alloc: Global) -> NameSet
        ensures names { result.names.items ≡ [] }
        ensures seen { Knows result.seen.keys result.names.items }
    {
        NameSet {
            seen: HashSet::new(alloc),
            names: Vec::new(alloc),
        }
    }

    /// Adds a name, which goes last where it is new.
    fn add(&mut self, name: Name) -> Result<(), OutOfMemory>
        requires { Knows self.old.seen.keys self.old.names.items }
        ensures names { OnOk result (numbers self.new.names.items ≡ with_node (numbers self.old.names.items) name.0) }
        ensures seen { OnOk result (Knows self.new.seen.keys self.new.names.items) }
    {
        if self.seen.insert(name.0)? {
            self.names.push(name)?;
        }
        Ok(())
    }

    /// Adds each of these in turn.
    pub(crate) fn add_all(&mut self, names: &[Name]) -> Result<(), OutOfMemory>
        requires { Knows self.old.seen.keys self.old.names.items }
        ensures names { OnOk result (numbers self.new.names.items ≡ with_nodes (numbers self.old.names.items) (numbers names.now)) }
        ensures seen { OnOk result (Knows self.new.seen.keys self.new.names.items) }
    {
        for name in names {
            self.add(*name)?;
        }
        Ok(())
    }
}
