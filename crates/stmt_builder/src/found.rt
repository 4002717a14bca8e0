// What is read of statements in one go.

use vdm_tree::{Stmt, StmtCase};

/// The alternatives of `cases`, and what stands behind `others`.
#[derive(Drop)]
pub(crate) struct Cases {
    pub cases: Vec<StmtCase>,
    pub others: Option<Box<Stmt>>,
}

/// `first in second`
#[derive(Drop)]
pub(crate) struct Two {
    pub first: Box<Stmt>,
    pub second: Box<Stmt>,
}
