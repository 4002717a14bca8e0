// Which record type a name stands for.

ghost use Rattle.std.specs.Prelude.{◌≡◌, IfOk, option_map};
ghost use Rattle.pattern_meaning.specs.RecordTypes.{name_in as named_in, stands_for};
ghost use Rattle.record_names.specs.Names.{record_type_of_names};
ghost use Rattle.type_tree.specs.TypeView.{type_view};

use expr_tree::{TypeBody, TypeExpr, TypeNames};
use vdm_kinds::{Name, OutOfMemory, TypeName};

/// The class and the name of the record type that a name stands for in a class.
pub fn record_type<N: TypeNames>(
    scope: Name,
    type_name: TypeName,
    names: &N,
) -> Result<Option<(Name, Name)>, OutOfMemory>
    ensures { IfOk result (λ found. option_map record_type_of_names found ≡ stands_for (N.found names.now) (N.rank names.now) scope type_name) }
{
    let mut found = names.type_def(scope, type_name.class, type_name.name);
    for step in 0..u64::MAX {
        let Some(definition) = found else {
            return Ok(None);
        };
        let TypeBody::Same(declared) = &definition.body else {
            return Ok(Some((definition.class, definition.name)));
        };
        let Some(next) = name_in(declared)? else {
            return Ok(None);
        };
        found = names.type_def(definition.class, next.class, next.name);
    }
    Err(OutOfMemory)
}

// The name that a type is, brackets aside.
fn name_in(declared: &TypeExpr) -> Result<Option<TypeName>, OutOfMemory>
    ensures { IfOk result (λ name. name ≡ named_in (type_view declared.now)) }
{
    let mut inner = declared;
    for step in 0..u64::MAX {
        match inner {
            TypeExpr::Bracketed(next, _) => inner = next,
            TypeExpr::Named(name, _) => return Ok(Some(*name)),
            _ => return Ok(None),
        }
    }
    Err(OutOfMemory)
}
