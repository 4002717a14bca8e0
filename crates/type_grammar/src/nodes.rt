// The nodes of types.

ghost use Rattle.std.specs.Prelude.{◌≡◌, IfOk};
ghost use Rattle.abstract_syntax.specs.Types.{quote_type};
ghost use Rattle.type_tree.specs.TypeView.{type_view, type_views};
ghost use Rattle.type_reading.specs.Reading.{collection_type, mapping_type, enclosed_type, name_alone, name_of_class, first_place, product_of, union_of};
ghost use Rattle.type_grammar.specs.Views.{collection_view, mapping_view, bracket_view};

use crate::frame::{Bracket, Collection, Mapping};
use std::alloc::Global;
use type_tree::TypeExpr;
use vdm_kinds::{Name, OutOfMemory, Place, TypeName};

/// A collection of elements of a type.
pub fn collection_type(
    alloc: Global,
    collection: Collection,
    element: TypeExpr,
    place: Place,
) -> Result<TypeExpr, OutOfMemory>
    ensures { IfOk result (λ tree. type_view tree ≡ collection_type (collection_view collection) (type_view element) place) }
{
    let element = Box::new(alloc, element)?;
    Ok(match collection {
        Collection::Set => TypeExpr::set(element, place),
        Collection::Sequence => TypeExpr::seq(element, place),
        Collection::FilledSequence => TypeExpr::seq1(element, place),
    })
}

/// A map from keys to values.
pub fn mapping_type(
    alloc: Global,
    mapping: Mapping,
    key: Box<TypeExpr>,
    value: TypeExpr,
    place: Place,
) -> Result<TypeExpr, OutOfMemory>
    ensures { IfOk result (λ tree. type_view tree ≡ mapping_type (mapping_view mapping) (type_view key.value) (type_view value) place) }
{
    let value = Box::new(alloc, value)?;
    Ok(match mapping {
        Mapping::Any => TypeExpr::map(key, value, place),
        Mapping::Injective => TypeExpr::inmap(key, value, place),
    })
}

/// A type in brackets.
pub fn enclosed_type(
    alloc: Global,
    bracket: Bracket,
    inner: TypeExpr,
    place: Place,
) -> Result<TypeExpr, OutOfMemory>
    ensures { IfOk result (λ tree. type_view tree ≡ enclosed_type (bracket_view bracket) (type_view inner) place) }
{
    let inner = Box::new(alloc, inner)?;
    Ok(match bracket {
        Bracket::Round => TypeExpr::bracketed(inner, place),
        Bracket::Square => TypeExpr::optional(inner, place),
    })
}

/// A quote.
pub fn quote_type(name: Name, place: Place) -> TypeExpr
    ensures { type_view result ≡ quote_type name place }
{
    TypeExpr::Quote(name, place)
}

/// A name alone.
pub fn name_alone(name: Name, place: Place) -> TypeExpr
    ensures { type_view result ≡ name_alone name place }
{
    TypeExpr::named(
        TypeName {
            class: None,
            name,
            name_place: place,
        },
        place,
    )
}

/// A name behind that of its class.
pub fn name_of_class(class: Name, place: Place, name: Name, name_place: Place) -> TypeExpr
    ensures { type_view result ≡ name_of_class class place name name_place }
{
    TypeExpr::named(
        TypeName {
            class: Some(class),
            name,
            name_place,
        },
        place,
    )
}

/// The product of factors and a last one.
pub fn product_of(factors: Vec<TypeExpr>, last: TypeExpr) -> Result<TypeExpr, OutOfMemory>
    ensures { IfOk result (λ tree. type_view tree ≡ product_of (type_views factors.items) (type_view last)) }
{
    let place = first_place(&factors, &last);
    let mut factors = factors;
    factors.push(last)?;
    Ok(TypeExpr::product(factors, place))
}

/// The union of alternatives and a last one.
pub fn union_of(alternatives: Vec<TypeExpr>, last: TypeExpr) -> Result<TypeExpr, OutOfMemory>
    ensures { IfOk result (λ tree. type_view tree ≡ union_of (type_views alternatives.items) (type_view last)) }
{
    let place = first_place(&alternatives, &last);
    let mut alternatives = alternatives;
    alternatives.push(last)?;
    Ok(TypeExpr::union(alternatives, place))
}

/// Where types begin, of which the last is this one.
fn first_place(trees: &[TypeExpr], last: &TypeExpr) -> Place
    ensures { result ≡ first_place (type_views trees.now) (type_view last.now) }
{
    match trees {
        [first, ..] => first.place(),
        [] => last.place(),
    }
}
