// What is applied.

ghost use Rattle.std.specs.Prelude.{◌≡◌};
ghost use Rattle.expr_tree.specs.View.{boxed_view, view_of};
ghost use Rattle.name_steps.specs.Applied.{applied_tree, applied_view};

use eval_data::Selected;
use expr_tree::Expr;
use vdm_kinds::{Name, Place};

/// What is applied.
#[derive(Clone, Copy)]
pub(crate) enum Applied<'t> {
    /// A name.
    Name(Name),
    /// What a name means in the class of another name, which stands first.
    Qualified(Name, Name),
    /// What is selected at the place of the value that an expression gives.
    Member(&'t Box<Expr>, Selected, Place),
    /// The value of any other expression.
    Value,
}

/// What the head of an application says is applied.
pub(crate) fn applied_of(head: &Box<Expr>) -> Applied<'_>
    ensures { applied_view result ≡ applied_tree (boxed_view head.now) }
{
    applied_in(head)
}

fn applied_in(head: &Expr) -> Applied<'_>
    ensures { applied_view result ≡ applied_tree (view_of head.now) }
{
    match head {
        Expr::Name(name, _) => Applied::Name(*name),
        Expr::Qualified(class, name, _, _) => Applied::Qualified(*class, *name),
        Expr::Select(target, name, _, dot) => {
            Applied::Member(target, Selected::Member(*name), *dot)
        }
        Expr::SelectOfClass(target, class, _, name, _, dot) => {
            Applied::Member(target, Selected::OfClass(*class, *name), *dot)
        }
        _ => Applied::Value,
    }
}
