// What is left out of a run.

ghost use Rattle.std.specs.Prelude.{◌≡◌, map};
ghost use Rattle.vdm_lexer.specs.Lexemes.{fault_at};
ghost use Rattle.vdm_kinds.specs.declared.spec_kind.SpecKind.TheVariants.{LeftOut};
ghost use Rattle.text_phases.specs.Built.{unbuilt_fault};
ghost use Rattle.expr_tree.specs.View.{view_of};
ghost use Rattle.vdm_tree.specs.ClassView.{class_view};

use crate::classes::unbuilt_in_classes;
use built_exprs::unbuilt_in_expr;
use vdm_kinds::{Place, SpecFault, SpecKind};
use vdm_tree::{ClassDef, Expr};

/// The first form that has no meaning so far, of the classes of a specification and then of an expression behind it; nothing where
/// all are built.
pub fn unbuilt_fault(classes: &[ClassDef], tree: &Expr) -> Option<SpecFault>
    ensures { result ≡ unbuilt_fault (record { classes = map class_view classes.now }) (view_of tree.now) }
{
    match unbuilt_in_classes(classes).or(unbuilt_in_expr(tree)) {
        Some(place) => Some(left_out(place)),
        None => None,
    }
}

/// A form that has no meaning so far.
fn left_out(place: Place) -> SpecFault
    ensures { result ≡ fault_at LeftOut place }
{
    SpecFault {
        kind: SpecKind::LeftOut,
        place,
    }
}
