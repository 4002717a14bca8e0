// The names in types.

ghost use Rattle.std.specs.Prelude.{◌≡◌, option_map};
ghost use Rattle.type_tree.specs.TypeView.{type_view, type_views, type_trees};
ghost use Rattle.table_faults.specs.Firsts.{qualified_fault, named_fault, type_fault, types_fault, optional_fault};
ghost use Rattle.table_faults.specs.Tables.{spec_in, Holds};

use crate::names::{refusal, refused_if};
use crate::table::Table;
use type_tree::TypeExpr;
use vdm_kinds::{Place, SpecFault, SpecKind, TypeName};

impl<'t> Table<'t> {
    /// The name of a type has to be known in the class before its backquote.
    fn qualified_fault(
        &self,
        type_name: TypeName,
        place: Place,
        owner: Option<usize>,
    ) -> Option<SpecFault>
        requires { Holds self.now }
        ensures { result ≡ qualified_fault (spec_in self.now) type_name place owner }
    {
        match owner {
            Some(owner) => refused_if(
                !self.has_type(owner, type_name.name),
                SpecKind::UnknownName,
                type_name.name_place,
            ),
            None => Some(refusal(SpecKind::UnknownName, place)),
        }
    }

    /// The name of a type in the class of a number. With no class before it, it is a type's or a class's.
    fn named_fault(&self, k: usize, type_name: TypeName, place: Place) -> Option<SpecFault>
        requires { Holds self.now }
        ensures { result ≡ named_fault (spec_in self.now) k type_name place type_name.class }
    {
        match type_name.class {
            Some(class) => self.qualified_fault(type_name, place, self.list.number(class)),
            None => refused_if(
                !(self.has_type(k, type_name.name) || self.list.number(type_name.name).is_some()),
                SpecKind::UnknownName,
                type_name.name_place,
            ),
        }
    }

    /// The first name in a type that is unknown in the class of a number. It recurses once a level.
    pub(crate) fn type_fault(&self, k: usize, declared: &TypeExpr) -> Option<SpecFault>
        requires { Holds self.now }
        ensures { result ≡ type_fault (spec_in self.now) k (type_view declared.now) }
    {
        match declared {
            TypeExpr::Basic(_, _) | TypeExpr::Quote(_, _) => None,
            TypeExpr::Set(inner, _)
            | TypeExpr::Seq(inner, _)
            | TypeExpr::Seq1(inner, _)
            | TypeExpr::Optional(inner, _)
            | TypeExpr::Bracketed(inner, _) => self.type_fault(k, inner),
            TypeExpr::Map(key, value, _) | TypeExpr::InMap(key, value, _) => {
                self.type_fault(k, key).or(self.type_fault(k, value))
            }
            TypeExpr::Named(type_name, place) => self.named_fault(k, *type_name, *place),
            TypeExpr::Product(types, _) | TypeExpr::Union(types, _) => {
                for part in types {
                    if let Some(fault) = self.type_fault(k, part) {
                        return Some(fault);
                    }
                }
                None
            }
        }
    }

    /// The same of each of these in turn.
    pub(crate) fn types_fault(&self, k: usize, types: &[TypeExpr]) -> Option<SpecFault>
        requires { Holds self.now }
        ensures { result ≡ types_fault (spec_in self.now) k (type_trees (type_views types.now)) }
    {
        for declared in types {
            if let Some(fault) = self.type_fault(k, declared) {
                return Some(fault);
            }
        }
        None
    }

    /// The same of a type where one is given.
    pub(crate) fn optional_fault(&self, k: usize, declared: &Option<TypeExpr>) -> Option<SpecFault>
        requires { Holds self.now }
        ensures { result ≡ optional_fault (spec_in self.now) k (option_map type_view declared.now) }
    {
        match declared {
            Some(declared) => self.type_fault(k, declared),
            None => None,
        }
    }
}
