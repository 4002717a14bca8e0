// Where faults of types stand.

ghost use Rattle.std.specs.Prelude.{◌≡◌};
ghost use Rattle.abstract_syntax.specs.Types.{type_place};
ghost use Rattle.type_tree.specs.TypeView.{type_view};

use crate::type_expr::TypeExpr;
use vdm_kinds::Place;

impl TypeExpr {
    /// Where a fault of the type stands.
    pub fn place(&self) -> Place
        ensures { result ≡ type_place (type_view self.now) }
    {
        match self {
            TypeExpr::Basic(_, place)
            | TypeExpr::Quote(_, place)
            | TypeExpr::Set(_, place)
            | TypeExpr::Seq(_, place)
            | TypeExpr::Seq1(_, place)
            | TypeExpr::Map(_, _, place)
            | TypeExpr::InMap(_, _, place)
            | TypeExpr::Optional(_, place)
            | TypeExpr::Bracketed(_, place)
            | TypeExpr::Named(_, place)
            | TypeExpr::Product(_, place)
            | TypeExpr::Union(_, place) => *place,
        }
    }
}
