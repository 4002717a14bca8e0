// What was read of a statement before the first statement in it.

use crate::header::Header;
use vdm_kinds::Place;
use vdm_tree::{Dcl, Expr, Pattern, Stmt};

/// What was read of a statement before the first statement in it. Where lists of statements come, it has how many turns
/// may be taken: one more than there were tokens.
#[derive(Drop)]
pub enum Opening {
    /// All of it: no statement stands in it.
    Whole(Box<Stmt>),
    /// One statement is still to come.
    Body(Header),
    /// `(` and the local variables of a block.
    Block(usize, Vec<Dcl>, Place),
    /// `if c then`
    If(usize, Box<Expr>, Place),
    /// `cases e:`
    Cases(usize, Box<Expr>, Place),
    /// `trap p with`
    Trap(Box<Pattern>, Place),
    /// `tixe {`
    Tixe(Place),
    /// `always`
    Always(Place),
    /// `|| (`
    Parallel(Place),
}
