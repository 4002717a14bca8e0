// Loops, handlers, and what comes last.

ghost use Rattle.std.specs.Prelude.{◌≡◌, ◌≤◌, [], length, option_map};
ghost use Rattle.abstract_syntax.specs.Classes.{SpecTree};
ghost use Rattle.expr_tree.specs.View.{boxed_view, pattern_view};
ghost use Rattle.vdm_tree.specs.StmtView.{boxed_stmt};
ghost use Rattle.plans.specs.Plans.{part};
ghost use Rattle.node_meaning.specs.Envs.{Locals, at};
ghost use Rattle.node_meaning.specs.Tasks.{evaluated, stmt_in};
ghost use Rattle.stmt_meaning.specs.Handlers.{at_last, caught_in, trapped};
ghost use Rattle.stmt_meaning.specs.Loops.{counts_on, each_of_sequence, each_of_set, on_number};
ghost use Rattle.eval_data.specs.Parts.{here_of};
ghost use Rattle.step_data.specs.Actions.{action_code, height};
ghost use Rattle.step_data.specs.Parts.{handlers_of};

use eval_data::Here;
use expr_tree::Pattern;
use step_data::{Action, ForLoop, Pending, Round, Task, Waiting};
use vdm_kinds::Place;
use vdm_tree::{Expr, Handler, Stmt};

/// `for i = first to last by step do body`
pub(crate) fn for_numbers<'t>(here: Here<'t>, first: &'t Box<Expr>, rest: ForLoop<'t>) -> Action<'t>
    ensures same { (spec : SpecTree) (locals : Locals) → action_code spec locals result ≡ evaluated (here_of here.entry) locals (boxed_view first.entry.now) rest.entry.place (on_number rest.entry.place (counts_on (here_of here.entry) rest.entry.name (boxed_view rest.entry.last.now) (option_map boxed_view rest.entry.by.now) (boxed_stmt rest.entry.body.now) rest.entry.place)) }
    ensures falls { height result ≤ 1 }
{
    Action::Part(
        Task::Expr(here, first),
        Pending {
            waiting: Waiting::First(here, rest),
        },
    )
}

/// `for all pattern in set set do body`
pub(crate) fn for_set<'t>(
    here: Here<'t>,
    pattern: &'t Box<Pattern>,
    set: &'t Box<Expr>,
    body: &'t Box<Stmt>,
    place: Place,
) -> Action<'t>
    ensures same { (spec : SpecTree) (locals : Locals) → action_code spec locals result ≡ evaluated (here_of here.entry) locals (boxed_view set.entry.now) place (each_of_set spec (here_of here.entry) place (pattern_view pattern.entry.now.value) (boxed_stmt body.entry.now)) }
    ensures falls { height result ≤ 1 }
{
    let waiting = Waiting::OfSet(here, pattern, body, place);
    Action::Part(Task::Expr(here, set), Pending { waiting })
}

/// `for pattern in items do body`
pub(crate) fn for_sequence<'t>(
    here: Here<'t>,
    pattern: &'t Box<Pattern>,
    items: &'t Box<Expr>,
    body: &'t Box<Stmt>,
    place: Place,
) -> Action<'t>
    ensures same { (spec : SpecTree) (locals : Locals) → action_code spec locals result ≡ evaluated (here_of here.entry) locals (boxed_view items.entry.now) place (each_of_sequence spec (here_of here.entry) place (pattern_view pattern.entry.now.value) (boxed_stmt body.entry.now)) }
    ensures falls { height result ≤ 1 }
{
    let waiting = Waiting::OfSequence(here, pattern, body, place);
    Action::Part(Task::Expr(here, items), Pending { waiting })
}

/// `trap pattern with handler in body`, among so many locals
pub(crate) fn trap<'t>(
    here: Here<'t>,
    pattern: &'t Box<Pattern>,
    handler: &'t Box<Stmt>,
    body: &'t Box<Stmt>,
    place: Place,
    count: usize,
) -> Action<'t>
    ensures same { (spec : SpecTree) (locals : Locals) → action_code spec locals result ≡ part (stmt_in (at (here_of here.entry) locals) [] (boxed_stmt body.entry.now)) (trapped spec (here_of here.entry) place (pattern_view pattern.entry.now.value) (boxed_stmt handler.entry.now) count) }
    ensures falls { height result ≤ 1 }
{
    let waiting = Waiting::Trapped(here, pattern, handler, place, count);
    Action::Part(Task::Stmt(here, body), Pending { waiting })
}

/// `tixe {handlers} in body`, among so many locals
pub(crate) fn tixe<'t>(
    here: Here<'t>,
    handlers: &'t [Handler],
    body: &'t Box<Stmt>,
    place: Place,
    count: usize,
) -> Action<'t>
    ensures same { (spec : SpecTree) (locals : Locals) → count ≡ length locals → action_code spec locals result ≡ caught_in spec (here_of here.entry) place (handlers_of handlers.entry.now) (boxed_stmt body.entry.now) locals }
    ensures falls { height result ≤ 1 }
{
    let round = Round::Handles(handlers, count, body, place);
    Action::Part(
        Task::Stmt(here, body),
        Pending {
            waiting: Waiting::Round(here, round),
        },
    )
}

/// `always last in body`, among so many locals
pub(crate) fn always<'t>(
    here: Here<'t>,
    last: &'t Box<Stmt>,
    body: &'t Box<Stmt>,
    count: usize,
) -> Action<'t>
    ensures same { (spec : SpecTree) (locals : Locals) → action_code spec locals result ≡ part (stmt_in (at (here_of here.entry) locals) [] (boxed_stmt body.entry.now)) (at_last (here_of here.entry) count (boxed_stmt last.entry.now)) }
    ensures falls { height result ≤ 1 }
{
    let waiting = Waiting::AtLast(here, last, count);
    Action::Part(Task::Stmt(here, body), Pending { waiting })
}
