// The names that are bound so far, and where each of them stands.

ghost use Rattle.patterns.specs.Places.{FindsPlaces, FindsPlaces-prop};

use crate::bound::Bound;
use std::collections::HashMap;

/// Names, each once, in the order in which they were bound. The map has the place of each; it may have old places of others, where
/// now another name stands, or none.
#[derive(Drop)]
pub(crate) struct Names<'t> {
    pub(crate) bounds: Vec<Bound<'t>>,
    pub(crate) places: HashMap<u32, usize>,
    ghost finds: { FindsPlaces places bounds.items } by { FindsPlaces-prop places bounds.items },
}
