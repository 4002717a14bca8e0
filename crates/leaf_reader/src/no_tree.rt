// Tokens that are refused.

use vdm_kinds::Halt;

/// The tokens do not begin with what was to be read.
#[derive(Clone, Copy, Debug, PartialEq, Eq)]
pub struct NoTree;

/// The halt that says so.
pub const NO_TREE: Halt<NoTree> = Halt::Of(NoTree);
