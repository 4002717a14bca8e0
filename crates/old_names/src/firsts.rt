// Names, each once where it stands first.

ghost use Rattle.std.specs.Prelude.{◌≡◌, IfOk};
ghost use Rattle.std.specs.List.{list_any};
ghost use Rattle.abstract_syntax.specs.Classes.{is_same_name};
ghost use Rattle.class_meaning.specs.Objects.{first_names};
ghost use Rattle.old_names.specs.Firsts.{with_name};

use std::alloc::Global;
use vdm_kinds::{Name, OutOfMemory};

/// The names, each once where it stands first.
#[tactic(auto, using(crate::proofs::Once::one_more))]
pub(crate) fn first_names(alloc: Global, names: &[Name]) -> Result<Vec<Name>, OutOfMemory>
    ensures { IfOk result (λ firsts. firsts.items ≡ first_names names.now) }
{
    let mut firsts = Vec::new(alloc);
    for name in names {
        firsts = with_name(firsts, *name)?;
    }
    Ok(firsts)
}

/// The names with one more, which goes last where it is new.
fn with_name(names: Vec<Name>, name: Name) -> Result<Vec<Name>, OutOfMemory>
    ensures { IfOk result (λ all. all.items ≡ with_name names.items name) }
{
    let mut all = names;
    if !has_name(all.as_slice(), name) {
        all.push(name)?;
    }
    Ok(all)
}

fn has_name(names: &[Name], name: Name) -> bool
    ensures { result ≡ list_any (is_same_name name) names.now }
{
    for other in names {
        if name.0 == other.0 {
            return true;
        }
    }
    false
}
