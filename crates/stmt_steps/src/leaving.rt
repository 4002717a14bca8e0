// Returns and exits.

ghost use Rattle.std.specs.Prelude.{◌≡◌, ◌≤◌, option_map};
ghost use Rattle.abstract_syntax.specs.Classes.{SpecTree};
ghost use Rattle.expr_tree.specs.View.{boxed_view};
ghost use Rattle.node_meaning.specs.Envs.{Locals};
ghost use Rattle.stmt_meaning.specs.Statements.{exit_of, returned_of};
ghost use Rattle.eval_data.specs.Parts.{here_of};
ghost use Rattle.step_data.specs.Actions.{action_code, height};

use eval_data::{Flow, Here};
use step_data::{Action, Pending, Task, Waiting};
use vdm_kinds::Place;
use vdm_tree::Expr;
use vdm_values::{Node, Slot, Value};

/// `return value`, or without one.
pub(crate) fn returns<'t>(here: Here<'t>, value: &'t Option<Box<Expr>>, place: Place) -> Action<'t>
    ensures same { (spec : SpecTree) (locals : Locals) → action_code spec locals result ≡ returned_of (here_of here.entry) (option_map boxed_view value.now) place locals }
    ensures falls { height result ≤ 1 }
{
    match value {
        None => Action::Finish(Flow::Returned(Slot::Unset)),
        Some(value) => Action::Part(
            Task::Expr(here, value),
            Pending {
                waiting: Waiting::Return(place),
            },
        ),
    }
}

/// `exit value`; one without a value exits with `nil`.
pub(crate) fn exits<'t>(here: Here<'t>, value: &'t Option<Box<Expr>>, place: Place) -> Action<'t>
    ensures same { (spec : SpecTree) (locals : Locals) → action_code spec locals result ≡ exit_of (here_of here.entry) (option_map boxed_view value.now) place locals }
    ensures falls { height result ≤ 1 }
{
    match value {
        None => Action::Finish(Flow::Exited(Value::new(Node::Nil), place)),
        Some(value) => Action::Part(
            Task::Expr(here, value),
            Pending {
                waiting: Waiting::Exit(place),
            },
        ),
    }
}
