// The types that a request declares.

ghost use Rattle.std.specs.Prelude.{◌≡◌, false, map, option_map};
ghost use Rattle.std.specs.Borrow.{Bor};
ghost use Rattle.expr_tree.specs.TypeDefView.{type_def_view, type_body_view};
ghost use Rattle.expr_tree.specs.declared.type_def.TypeDef.{TypeDef as TypeDefinition};
ghost use Rattle.type_tree.specs.TypeView.{type_view};
ghost use Rattle.row_patterns.specs.Finding.{finds, first_named, if_known, is_above, is_known, is_named, line_of, looked_up, name_alone, name_of, finds-ranked};

use crate::growing::{here, on_line};
use expr_tree::{Field, TypeBody, TypeDef, TypeNames};
use row_desk::Desk;
use row_words::Line;
use std::alloc::Global;
use type_tree::TypeExpr;
use vdm_kinds::{Access, BasicType, Level, Name, TypeName};

/// Types that have fields, or are names of others declared before them, and the class in which names of types are written.
pub struct RecordTypes {
    pub scope: Name,
    types: Vec<TypeDef>,
}

// A derived drop would be proved again in each crate that drops one.
impl Drop for RecordTypes {
    fn drop(self) {
        let RecordTypes {
            scope: _scope,
            types: _types,
        } = self;
    }
}

impl RecordTypes {
    /// No types.
    pub fn new(alloc: Global) -> RecordTypes {
        RecordTypes {
            scope: Name::IO,
            types: Vec::new(alloc),
        }
    }

    /// Declares the record type that stands next: its class, its name, and the names of its fields.
    pub(crate) fn declare(&mut self, desk: &Desk, line: &mut Line<'_>) {
        let class = desk.name(line);
        let name = desk.name(line);
        let fields = fields(desk, line);
        self.put(class, name, TypeBody::Fields(fields), line);
    }

    /// Declares the type that stands next as the name of another: its class, its name, and the other.
    pub(crate) fn rename(&mut self, desk: &Desk, line: &mut Line<'_>) {
        let class = desk.name(line);
        let name = desk.name(line);
        let other = other(desk, line);
        self.put(class, name, TypeBody::Same(other), line);
    }

    fn put(&mut self, class: Name, name: Name, body: TypeBody, line: &mut Line<'_>) {
        let place = on_line(u32::try_from(self.types.len()).unwrap_or(u32::MAX));
        let declared = TypeDef {
            access: Access {
                is_static: false,
                level: Level::Public,
            },
            class,
            name,
            name_place: place,
            body,
            invariant: None,
            place,
        };
        line.put(&mut self.types, declared);
    }
}

impl TypeNames for RecordTypes {
    ghost found = { λ names. finds (map type_def_view names.types.items) };

    ghost rank = { λ names. line_of };

    ghost descends = { λ names class ancestor. false };

    fn type_def(&self, scope: Name, class: Option<Name>, name: Name) -> Option<&TypeDef> {
        let types = self.types.as_slice();
        known(types, look_up(types, scope, class, name))
    }

    fn is_kind_of(&self, _class: Name, _ancestor: Name) -> bool {
        false
    }

    fn all_classes(&self) -> &[Name] {
        &[]
    }

    ghost ranked = { λ names. finds-ranked (map type_def_view names.types.items) };
}

// The type, where it has fields or its name is that of one above it.
fn known<'t>(types: &'t [TypeDef], found: Option<&'t TypeDef>) -> Option<&'t TypeDef>
    ensures { option_map (λ (d : Bor TypeDefinition). type_def_view d.now) result ≡ if_known (map type_def_view types.now) (option_map (λ (d : Bor TypeDefinition). type_def_view d.now) found.entry) }
{
    let declared = found?;
    if is_known(types, declared) {
        Some(declared)
    } else {
        None
    }
}

fn is_known(types: &[TypeDef], declared: &TypeDef) -> bool
    ensures { result ≡ is_known (map type_def_view types.now) (type_def_view declared.now) (type_body_view declared.now.body) }
{
    match &declared.body {
        TypeBody::Fields(_) => true,
        TypeBody::Same(other) => match name_of(other) {
            Some(other) => {
                let found = look_up(types, declared.class, other.class, other.name);
                is_above(found, declared.place.line)
            }
            None => false,
        },
    }
}

fn is_above(found: Option<&TypeDef>, line: u32) -> bool
    ensures { result ≡ is_above (option_map (λ (d : Bor TypeDefinition). type_def_view d.now) found.entry) line }
{
    match found {
        Some(declared) => declared.place.line < line,
        None => true,
    }
}

fn look_up(types: &[TypeDef], scope: Name, class: Option<Name>, name: Name) -> Option<&TypeDef>
    ensures { option_map (λ (d : Bor TypeDefinition). type_def_view d.now) result ≡ looked_up (map type_def_view types.now) scope class name }
{
    first_named(types, class.unwrap_or(scope), name)
}

// The first type of this class and name.
fn first_named(types: &[TypeDef], class: Name, name: Name) -> Option<&TypeDef>
    ensures { option_map (λ (d : Bor TypeDefinition). type_def_view d.now) result ≡ first_named (map type_def_view types.now) class name }
{
    for declared in types {
        if is_named(declared, class, name) {
            return Some(declared);
        }
    }
    None
}

fn is_named(declared: &TypeDef, class: Name, name: Name) -> bool
    ensures { result ≡ is_named (type_def_view declared.now) class name }
{
    declared.class.0 == class.0 && declared.name.0 == name.0
}

// The name that a type is, perhaps in brackets.
fn name_of(declared: &TypeExpr) -> Option<TypeName>
    ensures { result ≡ name_of (type_view declared.now) }
{
    match declared {
        TypeExpr::Named(name, _) => Some(*name),
        TypeExpr::Bracketed(inner, _) => name_alone(inner),
        _ => None,
    }
}

fn name_alone(declared: &TypeExpr) -> Option<TypeName>
    ensures { result ≡ name_alone (type_view declared.now) }
{
    match declared {
        TypeExpr::Named(name, _) => Some(*name),
        _ => None,
    }
}

// So many fields as the next word says.
fn fields(desk: &Desk, line: &mut Line<'_>) -> Vec<Field> {
    let mut fields = Vec::new(line.alloc());
    for _field in 0..line.count().min(line.bound()) {
        let field = Field {
            name: desk.name(line),
            name_place: here(),
            declared: TypeExpr::basic(BasicType::Nat, here()),
        };
        line.put(&mut fields, field);
    }
    fields
}

// The type whose name stands next, in brackets or not, behind the name of a class or not.
fn other(desk: &Desk, line: &mut Line<'_>) -> TypeExpr {
    match line.word() {
        "bracketed" => bracketed(named(desk, line), line),
        "plain" => named(desk, line),
        _ => {
            line.refuse();
            TypeExpr::basic(BasicType::Nat, here())
        }
    }
}

fn named(desk: &Desk, line: &mut Line<'_>) -> TypeExpr {
    let class = match line.word() {
        "of" => Some(desk.name(line)),
        _ => None,
    };
    let name = TypeName {
        class,
        name: desk.name(line),
        name_place: here(),
    };
    TypeExpr::named(name, here())
}

fn bracketed(inner: TypeExpr, line: &mut Line<'_>) -> TypeExpr {
    match Box::new(line.alloc(), inner) {
        Ok(inner) => TypeExpr::Bracketed(inner, here()),
        Err(_) => {
            line.fall_short();
            TypeExpr::basic(BasicType::Nat, here())
        }
    }
}
