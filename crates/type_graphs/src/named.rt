// Which definition the name of a type stands for.

ghost use Rattle.std.specs.Prelude.{◌≡◌, option_map};
ghost use Rattle.std.specs.Option.{option_and_then};
ghost use Rattle.expr_tree.specs.TypeDefView.{type_def_view};
ghost use Rattle.class_meaning.specs.declared.ask.Ask.TheVariants.{AsType};
ghost use Rattle.class_meaning.specs.Found.{own_in, type_of, found_type as type_found, type_named as definition_named};
ghost use Rattle.class_index.specs.Lists.{spec_of};
ghost use Rattle.found_members.specs.Resolved.{Resolves};

use class_index::{ClassList, type_at};
use class_meaning::{Ask, Found};
use expr_tree::TypeDef;
use found_members::FoundNames;
use vdm_kinds::Name;

/// The type definition that the class of a number itself has.
fn own_type<'t>(
    list: &'t ClassList,
    names: &FoundNames,
    k: usize,
    name: Name,
) -> Option<&'t TypeDef>
    requires { Resolves names.now (spec_of list.now) }
    ensures { option_map (λ d. type_def_view d.now) result ≡ option_and_then type_of (own_in (spec_of list.now) (AsType name) k) }
{
    let class = list.class(k)?;
    match names.own(k, Ask::AsType(name)) {
        Some(at) => type_at(class, at),
        None => None,
    }
}

/// The type definition that a name means in the class of a number.
fn found_type<'t>(
    list: &'t ClassList,
    names: &FoundNames,
    k: usize,
    name: Name,
) -> Option<&'t TypeDef>
    requires { Resolves names.now (spec_of list.now) }
    ensures { option_map (λ d. type_def_view d.now) result ≡ type_found (spec_of list.now) name k }
{
    match names.found(k, Ask::AsType(name)) {
        Found::One(owner) => own_type(list, names, owner, name),
        Found::Nothing => None,
        Found::Several => None,
    }
}

/// The type definition that is named in a class, behind the name of a class and a backquote where there is one.
pub(crate) fn type_named<'t>(
    list: &'t ClassList,
    names: &FoundNames,
    scope: Name,
    class: Option<Name>,
    name: Name,
) -> Option<&'t TypeDef>
    requires { Resolves names.now (spec_of list.now) }
    ensures { option_map (λ d. type_def_view d.now) result ≡ definition_named (spec_of list.now) scope class name }
{
    let k = list.number(class.unwrap_or(scope))?;
    found_type(list, names, k, name)
}
