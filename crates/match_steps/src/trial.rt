// A pattern that was tried with a value.

use bind_steps::Attempt;
use eval_data::Met;
use expr_tree::Expr;

/// What comes of a pattern with a value.
#[derive(Drop)]
pub(crate) enum Tried<'t> {
    /// No expressions stand in brackets in it, and it was matched.
    AtOnce(Attempt),
    /// The expressions in brackets in it come first, of which this is the first one.
    Waits(&'t Box<Expr>, Vec<&'t Box<Expr>>),
}

/// A pattern, and what came of it.
#[derive(Drop)]
pub(crate) struct Trial<'t> {
    pub(crate) met: Met<'t>,
    pub(crate) tried: Tried<'t>,
}
