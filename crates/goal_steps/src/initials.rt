// Local variables with initial values.

ghost use Rattle.std.specs.Prelude.{◌≡◌, ◌≤◌, Some, map, IfOk};
ghost use Rattle.vdm_kinds.specs.declared.place.Place.{Place as PlaceOf};
ghost use Rattle.abstract_syntax.specs.Classes.{SpecTree};
ghost use Rattle.vdm_tree.specs.StmtView.{dcl_view, local_view};
ghost use Rattle.node_meaning.specs.Envs.{Here as MeantHere, Locals};
ghost use Rattle.node_meaning.specs.Tasks.{Code};
ghost use Rattle.stmt_meaning.specs.Blocks.{dcls_given, locals_given};
ghost use Rattle.eval_data.specs.Parts.{here_of};
ghost use Rattle.step_data.specs.Actions.{action_code, height};
ghost use Rattle.step_data.specs.Declarations.{rest_of_block};
ghost use Rattle.goal_steps.specs.Initials.{initial_code, next_code};

use std::alloc::Global;
use step_data::{Action, BlockRest, Declaring, Pending, Task, Waiting};
use vdm_kinds::{Name, OutOfMemory, Place};
use vdm_tree::{Dcl, Expr, Local};
use vdm_values::Slot;

/// A local variable with its initial value.
#[derive(Clone, Copy)]
pub(crate) struct Initial<'t> {
    local: &'t Local,
    value: &'t Box<Expr>,
    /// The variables behind it of the same word.
    others: &'t [Local],
}

impl<'t> Initial<'t> {
    /// The first of these variables that has an initial value. Those before it are unset.
    pub(crate) fn next(
        locals: &mut Vec<(Name, Slot)>,
        given: &'t [Local],
    ) -> Result<Option<Initial<'t>>, OutOfMemory>
        ensures { IfOk result (λ found. (spec : SpecTree) (here : MeantHere) (place : PlaceOf) (further : Locals → Code) → next_code spec here place further found locals.new.items ≡ locals_given spec here place (map local_view given.now) further locals.old.items) }
    {
        let mut left = given;
        while let Some((local, others)) = left.split_first() {
            left = others;
            if let Some(value) = &local.initial {
                return Ok(Some(Initial {
                    local,
                    value,
                    others,
                }));
            }
            locals.push((local.name, Slot::Unset))?;
        }
        Ok(None)
    }

    /// Its initial value is evaluated. Behind its word at the place stand the other words of the block.
    pub(crate) fn evaluated(
        self,
        alloc: Global,
        place: Place,
        dcls: &'t [Dcl],
        rest: BlockRest<'t>,
    ) -> Result<Action<'t>, OutOfMemory>
        ensures same { IfOk result (λ a. (spec : SpecTree) (locals : Locals) → action_code spec locals a ≡ initial_code spec (here_of rest.entry.here) place (dcls_given spec (here_of rest.entry.here) (map dcl_view dcls.now) (rest_of_block rest.entry)) self.entry locals) }
        ensures falls { IfOk result (λ a. height a ≤ 1) }
    {
        let declaring = Declaring {
            name: self.local.name,
            declared: &self.local.declared,
            place,
            locals: self.others,
            dcls,
            rest,
        };
        let waiting = Waiting::Local(Box::new(alloc, declaring)?);
        Ok(Action::Part(Task::Expr(rest.here, self.value), Pending { waiting }))
    }
}
