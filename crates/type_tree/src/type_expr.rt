// Types.

ghost use Rattle.std.specs.Prelude.{◌≡◌};
ghost use Rattle.abstract_syntax.specs.Types.{set_type, seq_type, seq1_type, map_type, inmap_type, optional_type, bracketed_type, basic_type, named_type, product_type, union_type};
ghost use Rattle.type_tree.specs.TypeView.{type_view, type_views, type_trees};

use vdm_kinds::{BasicType, Name, Place, TypeName};

/// A type, at the place of its first token.
pub enum TypeExpr {
    /// `bool`, `nat`, `nat1`, `int`, `char` or `token`.
    Basic(BasicType, Place),
    /// `<Red>`, by the name between its signs.
    Quote(Name, Place),
    /// `set of T`
    Set(Box<TypeExpr>, Place),
    /// `seq of T`
    Seq(Box<TypeExpr>, Place),
    /// `seq1 of T`
    Seq1(Box<TypeExpr>, Place),
    /// `map K to T`
    Map(Box<TypeExpr>, Box<TypeExpr>, Place),
    /// `inmap K to T`
    InMap(Box<TypeExpr>, Box<TypeExpr>, Place),
    /// `[T]`
    Optional(Box<TypeExpr>, Place),
    /// `(T)`
    Bracketed(Box<TypeExpr>, Place),
    /// ``T`` or ``C`T``.
    Named(TypeName, Place),
    /// `S * T * ..`
    Product(Vec<TypeExpr>, Place),
    /// `S | T | ..`
    Union(Vec<TypeExpr>, Place),
}

// A derived drop would be proved again, at a minute and more, in each crate that drops a tree.
impl Drop for TypeExpr {
    fn drop(self) {
        match self {
            TypeExpr::Basic(_a, _b) => {}
            TypeExpr::Quote(_a, _b) => {}
            TypeExpr::Set(_a, _b) => {}
            TypeExpr::Seq(_a, _b) => {}
            TypeExpr::Seq1(_a, _b) => {}
            TypeExpr::Map(_a, _b, _c) => {}
            TypeExpr::InMap(_a, _b, _c) => {}
            TypeExpr::Optional(_a, _b) => {}
            TypeExpr::Bracketed(_a, _b) => {}
            TypeExpr::Named(_a, _b) => {}
            TypeExpr::Product(_a, _b) => {}
            TypeExpr::Union(_a, _b) => {}
        }
    }
}

impl TypeExpr {
    /// `set of inner`
    pub fn set(inner: Box<TypeExpr>, place: Place) -> TypeExpr
        ensures { type_view result ≡ set_type (type_view inner.value) place }
    {
        TypeExpr::Set(inner, place)
    }

    /// `seq of inner`
    pub fn seq(inner: Box<TypeExpr>, place: Place) -> TypeExpr
        ensures { type_view result ≡ seq_type (type_view inner.value) place }
    {
        TypeExpr::Seq(inner, place)
    }

    /// `seq1 of inner`
    pub fn seq1(inner: Box<TypeExpr>, place: Place) -> TypeExpr
        ensures { type_view result ≡ seq1_type (type_view inner.value) place }
    {
        TypeExpr::Seq1(inner, place)
    }

    /// `map key to value`
    pub fn map(key: Box<TypeExpr>, value: Box<TypeExpr>, place: Place) -> TypeExpr
        ensures { type_view result ≡ map_type (type_view key.value) (type_view value.value) place }
    {
        TypeExpr::Map(key, value, place)
    }

    /// `inmap key to value`
    pub fn inmap(key: Box<TypeExpr>, value: Box<TypeExpr>, place: Place) -> TypeExpr
        ensures { type_view result ≡ inmap_type (type_view key.value) (type_view value.value) place }
    {
        TypeExpr::InMap(key, value, place)
    }

    /// `[inner]`
    pub fn optional(inner: Box<TypeExpr>, place: Place) -> TypeExpr
        ensures { type_view result ≡ optional_type (type_view inner.value) place }
    {
        TypeExpr::Optional(inner, place)
    }

    /// `(inner)`
    pub fn bracketed(inner: Box<TypeExpr>, place: Place) -> TypeExpr
        ensures { type_view result ≡ bracketed_type (type_view inner.value) place }
    {
        TypeExpr::Bracketed(inner, place)
    }

    /// The type of this word.
    pub fn basic(basic: BasicType, place: Place) -> TypeExpr
        ensures { type_view result ≡ basic_type basic place }
    {
        TypeExpr::Basic(basic, place)
    }

    /// The type of this name.
    pub fn named(type_name: TypeName, place: Place) -> TypeExpr
        ensures { type_view result ≡ named_type type_name place }
    {
        TypeExpr::Named(type_name, place)
    }

    /// `S * T * ..`, of two factors or more.
    pub fn product(factors: Vec<TypeExpr>, place: Place) -> TypeExpr
        ensures { type_view result ≡ product_type (type_trees (type_views factors.items)) place }
    {
        TypeExpr::Product(factors, place)
    }

    /// `S | T | ..`, of two alternatives or more.
    pub fn union(alternatives: Vec<TypeExpr>, place: Place) -> TypeExpr
        ensures { type_view result ≡ union_type (type_trees (type_views alternatives.items)) place }
    {
        TypeExpr::Union(alternatives, place)
    }
}
