// The alternatives of a type.

ghost use Rattle.std.specs.Prelude.{◌≡◌, ◌++◌, IfOk, OnOk};
ghost use Rattle.type_tree.specs.TypeView.{type_view};
ghost use Rattle.expr_tree.specs.Alternatives.{alternatives as alternatives_of, body_alternatives};
ghost use Rattle.expr_tree.specs.TypeDefView.{type_body_view};

use expr_tree::TypeBody;
use std::alloc::Global;
use type_tree::TypeExpr;
use vdm_kinds::{OutOfMemory, TypeName};

/// Adds the names that a type stands for. It recurses once a level.
fn push_alternatives(found: &mut Vec<TypeName>, declared: &TypeExpr) -> Result<(), OutOfMemory>
    ensures { OnOk result (found.new.items ≡ found.old.items ++ alternatives_of (type_view declared.now)) }
{
    match declared {
        TypeExpr::Named(name, _) => Ok(found.push(*name)?),
        TypeExpr::Optional(inner, _) | TypeExpr::Bracketed(inner, _) => {
            push_alternatives(found, inner)
        }
        TypeExpr::Union(types, _) => {
            for alternative in types {
                push_alternatives(found, alternative)?;
            }
            Ok(())
        }
        _ => Ok(()),
    }
}

/// The names that a type's definition stands for.
pub(crate) fn alternatives(alloc: Global, body: &TypeBody) -> Result<Vec<TypeName>, OutOfMemory>
    ensures { IfOk result (λ found. found.items ≡ body_alternatives (type_body_view body.now)) }
{
    let mut found = Vec::new(alloc);
    if let TypeBody::Same(declared) = body {
        push_alternatives(&mut found, declared)?;
    }
    Ok(found)
}
