// Names with values, as a tree whose branches tell names apart by their bits.

ghost use Rattle.std.specs.Prelude.{◌≡◌, ◌≢◌, not, IfOk, option_copied};
ghost use Rattle.shared_names.specs.Held.{with_name as held_with_name};
ghost use Rattle.shared_names.specs.Trees.{either as either_held, has_bit as name_has_bit, held_in};
ghost use Rattle.shared_names.specs.declared.tree.Tree.TheVariants.{Leaf, Branch};

use std::alloc::Global;
use std::rc::Rc;
use vdm_kinds::{Name, OutOfMemory};

/// Names with their values.
pub(crate) enum Tree<V> {
    /// One name with its value.
    Leaf(Name, V),
    /// The names whose bit at a place is 0, and those whose bit is 1. A branch is made where a leaf stood, at a place where
    /// its name and another differ that came the same way: so no place is on a way twice, and no way is longer than 32.
    Branch(u32, Rc<Tree<V>>, Rc<Tree<V>>),
}

// A derived drop would be proved again in each crate that drops a map.
impl<V: Drop> Drop for Tree<V> {
    fn drop(self) {
        match self {
            Tree::Leaf(_, _value) => {}
            Tree::Branch(_, _low, _high) => {}
        }
    }
}

/// Whether a name's bit at a place is 1. Places are counted around, so no tree has to say that its own are below 32.
fn has_bit(place: u32, name: Name) -> bool
    ensures { result ≡ name_has_bit place name }
{
    (name.0 >> (place % 32)) & 1 == 1
}

/// A place at which two names differ.
fn place_between(a: Name, b: Name) -> u32
    requires { a ≢ b }
    ensures { name_has_bit result b ≡ not (name_has_bit result a) }
{
    (a.0 ^ b.0).trailing_zeros()
}

/// The value under a name.
pub(crate) fn find<V>(tree: &Tree<V>, name: Name) -> Option<&V>
    ensures { option_copied result ≡ held_in tree.now name }
{
    let mut part = tree;
    loop {
        match part {
            Tree::Leaf(found, value) if *found == name => return Some(value),
            Tree::Leaf(_, _) => return None,
            Tree::Branch(place, _low, high) if has_bit(*place, name) => part = high.as_ref(),
            Tree::Branch(_, low, _high) => part = low.as_ref(),
        }
    }
}

/// The same tree once more.
pub(crate) fn shared<V: Drop>(tree: &Rc<Tree<V>>) -> Result<Rc<Tree<V>>, OutOfMemory>
    ensures { IfOk result (λ copy. copy.value ≡ tree.now.value) }
{
    Ok(tree.clone()?)
}

/// A name alone.
pub(crate) fn leaf<V: Drop>(alloc: Global, name: Name, value: V) -> Result<Rc<Tree<V>>, OutOfMemory>
    ensures { IfOk result (λ made. made.value ≡ Leaf name value) }
{
    Ok(Rc::new(alloc, Tree::Leaf(name, value))?)
}

/// Names at a place, told apart by their bits there.
fn branch<V: Drop>(
    alloc: Global,
    place: u32,
    low: Rc<Tree<V>>,
    high: Rc<Tree<V>>,
) -> Result<Rc<Tree<V>>, OutOfMemory>
    ensures { IfOk result (λ made. held_in made.value ≡ either_held place (held_in low.value) (held_in high.value)) }
{
    Ok(Rc::new(alloc, Tree::Branch(place, low, high))?)
}

/// A leaf, and another name beside it.
fn beside<V: Drop>(
    alloc: Global,
    old: &Rc<Tree<V>>,
    found: Name,
    name: Name,
    value: V,
) -> Result<Rc<Tree<V>>, OutOfMemory>
    requires apart { found ≢ name }
    ensures { IfOk result (λ made. (w : V) → old.now.value ≡ Leaf found w → held_in made.value ≡ held_with_name name value (held_in old.now.value)) }
{
    let place = place_between(found, name);
    let old = shared(old)?;
    let new = leaf(alloc, name, value)?;
    if has_bit(place, name) {
        branch(alloc, place, old, new)
    } else {
        branch(alloc, place, new, old)
    }
}

/// The tree with a value more, in the place of the one that stood under its name. It shares with the old tree all that is
/// not on the way to the name.
pub(crate) fn with_name<V: Drop>(
    alloc: Global,
    tree: &Rc<Tree<V>>,
    name: Name,
    value: V,
) -> Result<Rc<Tree<V>>, OutOfMemory>
    ensures { IfOk result (λ made. held_in made.value ≡ held_with_name name value (held_in tree.now.value)) }
{
    match tree.as_ref() {
        Tree::Leaf(found, _) => {
            if *found == name {
                leaf(alloc, name, value)
            } else {
                beside(alloc, tree, *found, name, value)
            }
        }
        Tree::Branch(place, low, high) => {
            if has_bit(*place, name) {
                let high = with_name(alloc, high, name, value)?;
                branch(alloc, *place, shared(low)?, high)
            } else {
                let low = with_name(alloc, low, name, value)?;
                branch(alloc, *place, low, shared(high)?)
            }
        }
    }
}
