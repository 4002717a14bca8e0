// Definitions of types, and who finds them.

use crate::expr::Expr;
use crate::pattern::Pattern;
use type_tree::TypeExpr;
use vdm_kinds::{Access, Name, Place};

/// A field of a record type.
#[derive(Drop)]
pub struct Field {
    pub name: Name,
    /// Where its name stands.
    pub name_place: Place,
    pub declared: TypeExpr,
}

/// What a type is.
#[derive(Drop)]
pub enum TypeBody {
    /// Another type.
    Same(TypeExpr),
    /// The type of the records of these fields.
    Fields(Vec<Field>),
}

/// `inv p == e`
#[derive(Drop)]
pub struct TypeInvariant {
    pub pattern: Pattern,
    pub condition: Box<Expr>,
}

/// A type.
#[derive(Drop)]
pub struct TypeDef {
    pub access: Access,
    /// The class that it stands in.
    pub class: Name,
    pub name: Name,
    /// Where its name stands.
    pub name_place: Place,
    pub body: TypeBody,
    pub invariant: Option<TypeInvariant>,
    /// Where the definition begins.
    pub place: Place,
}
