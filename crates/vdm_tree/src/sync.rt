// Threads and synchronisation.

use crate::stmt::Stmt;
use expr_tree::Expr;
use vdm_kinds::{Name, NameAt, Place};

/// What may stand behind the period of a periodic thread.
#[derive(Drop)]
pub struct Phase {
    pub jitter: Box<Expr>,
    pub delay: Box<Expr>,
    pub offset: Box<Expr>,
}

/// The thread of a class.
#[derive(Drop)]
pub enum Thread {
    /// `periodic(p, j, d, o)(op)`: the operation, and where its name stands; at the place of the word.
    Periodic(Box<Expr>, Option<Phase>, Name, Place, Place),
    Procedural(Box<Stmt>),
}

/// A clause of synchronisation, at the place of its word.
#[derive(Drop)]
pub enum Sync {
    /// `per op => e`: the operation, and where its name stands.
    Permission(Name, Place, Box<Expr>, Place),
    /// `mutex(all)`
    MutexAll(Place),
    /// `mutex(op, op)`
    MutexOf(Vec<NameAt>, Place),
}
