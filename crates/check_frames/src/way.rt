// How a selected member is used.

use expr_tree::Expr;
use vdm_kinds::Place;

/// How a selected member is used.
#[derive(Clone, Copy)]
pub enum Way<'t> {
    Read,
    /// Applied to the arguments at `place`; the expression before them has its place at `head_place`.
    Applied {
        head_place: Place,
        arguments: &'t [Expr],
        place: Place,
    },
}
