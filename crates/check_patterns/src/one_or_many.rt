// One pattern or several, as a tree has them.

use expr_tree::Pattern;

/// One pattern, or several that stand behind one another.
#[derive(Clone, Copy)]
pub enum Patterns<'t> {
    One(&'t Box<Pattern>),
    Many(&'t Vec<Pattern>),
}
