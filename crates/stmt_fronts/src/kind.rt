// What words are to be read as.

/// What words are to be read as.
#[derive(Clone, Copy, Debug, PartialEq, Eq)]
pub enum Kind {
    Stmt,
    Spec,
}
