// Blocks with local variables.

use eval_data::Here;
use type_tree::TypeExpr;
use vdm_kinds::{Name, Place};
use vdm_tree::{Dcl, Local, Stmt};

/// What follows the local variables of a block: its statements, among all of them.
#[derive(Clone, Copy)]
pub struct BlockRest<'t> {
    pub here: Here<'t>,
    /// The local variables of the block.
    pub dcls: &'t [Dcl],
    pub statements: &'t [Stmt],
    /// How many locals stand before them.
    pub count: usize,
}

/// A local variable of a block, whose initial value is being evaluated or tested.
#[derive(Clone, Copy)]
pub struct Declaring<'t> {
    pub name: Name,
    pub declared: &'t TypeExpr,
    /// Where its word stands.
    pub place: Place,
    /// The variables behind it of the same word.
    pub locals: &'t [Local],
    /// The words behind that.
    pub dcls: &'t [Dcl],
    pub rest: BlockRest<'t>,
}
