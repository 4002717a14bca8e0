// What is built of a node by itself.

ghost use Rattle.std.specs.Prelude.{◌≡◌};
ghost use Rattle.text_phases.specs.Built.{unless};
ghost use Rattle.expr_tree.specs.View.{view_of};
ghost use Rattle.built_nodes.specs.LeftOut.{left_out_here};

use expr_tree::Expr;
use vdm_kinds::Place;

/// Nothing where it is built, else the place.
pub fn unless(built: bool, place: Place) -> Option<Place>
    ensures { result ≡ unless built place }
{
    (!built).then_some(place)
}

/// The place of what is not built, whatever stands in it.
pub fn left_out_here(expr: &Expr) -> Option<Place>
    ensures { result ≡ left_out_here (view_of expr.now) }
{
    match expr {
        Expr::History(_, _, place) => Some(*place),
        _ => None,
    }
}
