// What is tested next.

ghost use Rattle.std.specs.Prelude.{◌≡◌};
ghost use Rattle.conform.specs.Frames.{plainly_next};

use expr_tree::TypeExpr;
use vdm_kinds::Name;
use vdm_values::Value;

/// A value, and a type in the class `scope`.
#[derive(Clone, Copy)]
pub(crate) struct Goal<'v, 't> {
    pub(crate) value: &'v Value,
    pub(crate) scope: Name,
    pub(crate) declared: &'t TypeExpr,
}

impl<'v, 't> Goal<'v, 't> {
    /// The same value, and another type in the same class.
    pub(crate) fn of(self, declared: &'t TypeExpr) -> Goal<'v, 't>
        ensures { result ≡ record self.entry { declared = declared.entry } }
    {
        Goal {
            value: self.value,
            scope: self.scope,
            declared,
        }
    }
}

/// How a test of a shape goes on.
#[derive(Clone, Copy)]
pub(crate) enum Next<'v, 't> {
    /// The shape is another one.
    Fails,
    /// The value has the shape, and what has to hold of it was found.
    Holds,
    /// This is tested in its place.
    Tests(Goal<'v, 't>),
}

/// What passes has the shape, and nothing more has to hold of it.
pub(crate) fn plainly<'v, 't>(passes: bool) -> Next<'v, 't>
    ensures { result ≡ plainly_next passes }
{
    if passes { Next::Holds } else { Next::Fails }
}
