// The local variables that are declared round a statement.

ghost use Rattle.std.specs.Prelude.{◌≡◌, ◌++◌, [], map, IfOk};
ghost use Rattle.std.specs.Borrow.{Bor};
ghost use Rattle.type_tree.specs.declared.type_expr.TypeExpr.{TypeExpr as TypeExprOf};
ghost use Rattle.vdm_kinds.specs.declared.name.Name.{Name as NameOf};
ghost use Rattle.vdm_tree.specs.StmtView.{dcl_view, local_view};
ghost use Rattle.stmt_meaning.specs.Blocks.{local_type, types_declared};
ghost use Rattle.step_data.specs.Declarations.{declared_of, typed_name};

use std::alloc::Global;
use std::sync::Arc;
use type_tree::TypeExpr;
use vdm_kinds::{Name, OutOfMemory};
use vdm_tree::{Dcl, Local};

/// The local variables that are declared round a statement, with their types, the newest last. What waits shares them with what it
/// waits for.
pub struct Declared<'t> {
    shared: Option<Arc<Vec<(Name, &'t TypeExpr)>>>,
}

// By hand, so that whoever drops it calls this.
impl<'t> Drop for Declared<'t> {
    fn drop(self) {
        let Declared { shared: _ } = self;
    }
}

impl<'t> Declared<'t> {
    /// None are declared.
    pub fn none() -> Declared<'t>
        ensures { declared_of result ≡ [] }
    {
        Declared { shared: None }
    }

    /// The same once more, in constant time.
    pub fn share(&self) -> Result<Declared<'t>, OutOfMemory>
        ensures { IfOk result (λ d. declared_of d ≡ declared_of self.now) }
    {
        match &self.shared {
            Some(shared) => Ok(Declared {
                shared: Some(shared.clone()?),
            }),
            None => Ok(Declared { shared: None }),
        }
    }

    /// Their names, each with its type.
    pub fn as_slice(&self) -> &[(Name, &'t TypeExpr)]
        ensures { map typed_name result.now ≡ declared_of self.now }
    {
        match &self.shared {
            Some(shared) => shared.as_slice(),
            None => &[],
        }
    }

    /// Behind these, those of a block.
    pub fn further(&self, alloc: Global, dcls: &'t [Dcl]) -> Result<Declared<'t>, OutOfMemory>
        ensures { IfOk result (λ d. declared_of d ≡ declared_of self.now ++ types_declared (map dcl_view dcls.now)) }
    {
        let mut all = Vec::new(alloc);
        add_known(&mut all, self.as_slice())?;
        for dcl in dcls {
            add_locals(&mut all, dcl.locals.as_slice())?;
        }
        Ok(Declared {
            shared: Some(Arc::new(alloc, all)?),
        })
    }
}

/// Behind those that are there, these.
fn add_known<'t>(
    all: &mut Vec<(Name, &'t TypeExpr)>,
    known: &[(Name, &'t TypeExpr)],
) -> Result<(), OutOfMemory>
    ensures { IfOk result (λ _. map typed_name all.new.items ≡ map typed_name all.old.items ++ map typed_name known.now) }
{
    for name in known {
        all.push(*name)?;
    }
    Ok(())
}

/// Behind those that are there, the local variables of one word.
fn add_locals<'t>(
    all: &mut Vec<(Name, &'t TypeExpr)>,
    locals: &'t [Local],
) -> Result<(), OutOfMemory>
    ensures { IfOk result (λ _. map typed_name all.new.items ≡ map typed_name all.old.items ++ map local_type (map local_view locals.now)) }
{
    for local in locals {
        all.push((local.name, &local.declared))?;
    }
    Ok(())
}
