// Who finds the definitions of types.

ghost use Rattle.std.specs.Prelude.{◌≡◌, ◌↔◌, ℕ, Bool, List, Option, option_map, IsTrue, Contains};
ghost use Rattle.std.specs.Borrow.{Bor};
ghost use Rattle.vdm_kinds.specs.declared.name.Name.{Name};
ghost use Rattle.abstract_syntax.specs.Classes.{TypeDefTree};
ghost use Rattle.expr_tree.specs.declared.type_def.TypeDef.{TypeDef};
ghost use Rattle.expr_tree.specs.Alternatives.{Finder, IsRanked};
ghost use Rattle.expr_tree.specs.TypeDefView.{type_def_view};

use crate::type_def::TypeDef;
use vdm_kinds::Name;

/// Finds the definitions of types, and tells which class is a kind of which.
pub trait TypeNames {
    /// The definition that a name stands for.
    ghost found: { Self → Finder };

    /// A number of each definition, by which none is its own alternative.
    ghost rank: { Self → TypeDefTree → ℕ };

    /// Whether the second class is the first one or one of its ancestors.
    ghost descends: { Self → Name → Name → Bool };

    /// The definition of the type that is named in the class `scope`, behind the name of `class` and a backquote where there
    /// is one. None exactly where no definition is found.
    fn type_def(&self, scope: Name, class: Option<Name>, name: Name) -> Option<&TypeDef>
        ensures { option_map (λ (d : Bor TypeDef). type_def_view d.now) result ≡ found self.now scope class name };

    /// Whether `ancestor` is the class itself or one of its ancestors.
    fn is_kind_of(&self, class: Name, ancestor: Name) -> bool
        ensures { result ≡ descends self.now class ancestor };

    /// Every class: each that is a kind of anything.
    fn all_classes(&self) -> &[Name]
        ensures { (class : Name) → Contains result.now class ↔ IsTrue (descends self.now class class) };

    /// The numbers fall from each definition to its alternatives.
    ghost ranked: { (names : Self) → IsRanked (found names) (rank names) };
}
