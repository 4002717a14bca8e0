// A map from names to values.

ghost use Rattle.std.specs.Prelude.{◌≡◌, IfOk, option_copied};
ghost use Rattle.shared_names.specs.Held.{nothing, with_name as held_with_name};
ghost use Rattle.shared_names.specs.Maps.{held};

use crate::tree::{Tree, find, leaf, shared, with_name};
use std::alloc::Global;
use std::rc::Rc;
use vdm_kinds::{Name, OutOfMemory};

/// A map from names to values. One that is extended stays as it was, and shares with the new one all but the way to the
/// new name.
pub struct SharedMap<V> {
    root: Option<Rc<Tree<V>>>,
}

// A derived drop would be proved again in each crate that drops a map.
impl<V: Drop> Drop for SharedMap<V> {
    fn drop(self) {
        let SharedMap { root: _ } = self;
    }
}

#[tactic(auto, unfolding(crate::specs::Maps::held))]
impl<V> SharedMap<V> {
    /// A map that holds nothing, and takes no memory.
    pub fn new() -> SharedMap<V>
        ensures { held result ≡ nothing }
    {
        SharedMap { root: None }
    }

    /// The value under a name.
    pub fn find(&self, name: Name) -> Option<&V>
        ensures { option_copied result ≡ held self.now name }
    {
        match &self.root {
            Some(root) => find(root.as_ref(), name),
            None => None,
        }
    }
}

#[tactic(auto, unfolding(crate::specs::Maps::held))]
impl<V: Drop> SharedMap<V> {
    /// The map with a value more, in the place of the one that stood under its name.
    pub fn with(&self, alloc: Global, name: Name, value: V) -> Result<SharedMap<V>, OutOfMemory>
        ensures { IfOk result (λ extended. held extended ≡ held_with_name name value (held self.now)) }
    {
        match &self.root {
            Some(root) => Ok(SharedMap {
                root: Some(with_name(alloc, root, name, value)?),
            }),
            None => Ok(SharedMap {
                root: Some(leaf(alloc, name, value)?),
            }),
        }
    }

    /// The same map once more, which takes no memory. It is refused only where 2^64 - 1 copies are there.
    pub fn copy(&self) -> Result<SharedMap<V>, OutOfMemory>
        ensures { IfOk result (λ copy. held copy ≡ held self.now) }
    {
        match &self.root {
            Some(root) => Ok(SharedMap {
                root: Some(shared(root)?),
            }),
            None => Ok(SharedMap::new()),
        }
    }
}
