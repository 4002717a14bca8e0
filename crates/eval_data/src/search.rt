// A search among choices, and the sets from which they are chosen.

use crate::chooser::Chooser;
use crate::here::Here;
use bind_choices::Choices;
use expr_tree::{Expr, Pattern};
use vdm_kinds::Place;
use vdm_values::{Value, ValueList};

/// A search among choices: patterns with the values of the expressions in brackets in them, the choices that are left, and what
/// was collected so far.
pub struct Search<'t> {
    pub here: Here<'t>,
    pub place: Place,
    /// How many locals stand before those that a choice binds.
    pub count: usize,
    pub patterns: Vec<&'t Pattern>,
    pub given: ValueList,
    pub chooser: Chooser<'t>,
    pub choices: Choices,
    pub done: Vec<Value>,
}

// By hand, so that whoever drops it calls this, and does not prove again the dropping of all that is in it.
impl<'t> Drop for Search<'t> {
    fn drop(self) {
        let Search {
            here: _,
            place: _,
            count: _,
            patterns: _,
            given: _,
            chooser: _,
            choices: _,
            done: _,
        } = self;
    }
}

/// Where elements come from: the expression of a bind, and how many patterns it has.
#[derive(Clone, Copy)]
pub struct Source<'t> {
    pub set: &'t Box<Expr>,
    pub count: usize,
}

/// The sets of binds: those that came, and where the others come from, of which the one at `at` is being evaluated.
pub struct Sets<'t> {
    pub here: Here<'t>,
    pub place: Place,
    pub sources: Vec<Source<'t>>,
    pub at: usize,
    pub lists: Vec<ValueList>,
    pub patterns: Vec<&'t Pattern>,
    pub chooser: Chooser<'t>,
}

impl<'t> Drop for Sets<'t> {
    fn drop(self) {
        let Sets {
            here: _,
            place: _,
            sources: _,
            at: _,
            lists: _,
            patterns: _,
            chooser: _,
        } = self;
    }
}
