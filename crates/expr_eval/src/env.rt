// Where an expression stands that is evaluated without a thread.

ghost use Rattle.std.specs.Prelude.{◌≡◌, IfOk};
ghost use Rattle.node_meaning.specs.Envs.{bound_locals};
ghost use Rattle.eval_data.specs.Parts.{here_of};
ghost use Rattle.expr_eval.specs.Evaluations.{here_in, locals_in};

use eval_data::{Held, Here, Nest};
use patterns::BindList;
use std::alloc::Global;
use vdm_kinds::{Name, OutOfMemory};
use vdm_values::{Slot, Value};

/// Where an expression stands that is evaluated without a thread, and what is bound there.
#[derive(Drop)]
pub struct Env {
    /// The class in which it stands.
    pub scope: Option<Name>,
    /// The class of the object.
    pub own: Option<Name>,
    /// The number of the object.
    pub me: Option<u32>,
    /// The names that are bound, the newest last.
    pub locals: BindList,
    /// What is held, in a predicate or an instance invariant.
    pub held: Option<Held>,
}

impl Env {
    /// Where the expression stands, inside of so many tests of invariants of types.
    pub(crate) fn here(&self, depth: u32) -> Here<'_>
        ensures { here_of result ≡ here_in self.now depth }
    {
        Here {
            scope: self.scope,
            own: self.own,
            me: self.me,
            held: self.held.as_ref(),
            nest: Nest { depth, test: None },
        }
    }

    /// The locals that are there where it begins.
    pub(crate) fn first_locals(&self, alloc: Global) -> Result<Vec<(Name, Slot)>, OutOfMemory>
        ensures { IfOk result (λ locals. locals.items ≡ locals_in self.now) }
    {
        bound(alloc, self.locals.as_slice())
    }
}

/// What is bound, as locals with values of their own.
fn bound(alloc: Global, pairs: &[(Name, Value)]) -> Result<Vec<(Name, Slot)>, OutOfMemory>
    ensures { IfOk result (λ locals. locals.items ≡ bound_locals pairs.now) }
{
    let mut locals = Vec::with_capacity(alloc, pairs.len())?;
    for (name, value) in pairs {
        let value = value.copy(alloc)?.share(alloc)?;
        locals.push((*name, Slot::Held(value)))?;
    }
    Ok(locals)
}
