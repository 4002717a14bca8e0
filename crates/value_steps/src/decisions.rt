// Truth values, and the signs that stop when decided.

ghost use Rattle.std.specs.Prelude.{◌≡◌, Bool};
ghost use Rattle.expr_tree.specs.View.{boxed_view};
ghost use Rattle.vdm_kinds.specs.Signs.{sign_operator};
ghost use Rattle.vdm_kinds.specs.declared.place.Place.{Place as PlaceOf};
ghost use Rattle.node_meaning.specs.Envs.{Locals};
ghost use Rattle.node_meaning.specs.Expressions.{decided_by, joined_by, right_truth, truth, unless_decided};
ghost use Rattle.node_meaning.specs.Matching.{on_truth};
ghost use Rattle.node_meaning.specs.Needs.{Setting};
ghost use Rattle.node_meaning.specs.Tasks.{Code};
ghost use Rattle.eval_data.specs.Parts.{here_of};
ghost use Rattle.eval_data.specs.Steps.{code_of, truth_use};
ghost use Rattle.value_steps.specs.Further.{decided_code, where_truth};

use crate::branches::branch;
use crate::operands::{between, part_for};
use eval_data::{Applying, Asking, Here, Search, Step, TruthUse, Use};
use expr_tree::Expr;
use vdm_kinds::{Place, RunFault, Sign};
use vdm_values::{Node, Value};

/// What comes of a condition.
#[derive(Drop)]
pub enum Decided<'t> {
    /// This step.
    Known(Step<'t>),
    /// The first of the choices that are left fulfils it or does not.
    Chosen(Box<Search<'t>>, bool),
    /// What `pre` says of the arguments of a function.
    Pre(Box<Applying<'t>>, bool),
    /// What `post` says of the result of a function.
    Post(Box<Applying<'t>>, Value, bool),
    /// Whether an invariant holds.
    Invariant(Box<Asking<'t>>, bool),
}

/// The truth value that the value is, if it is one.
pub fn truth_of(value: &Value) -> Option<bool>
    ensures { (place : PlaceOf) (further : Bool → Locals → Code) (locals : Locals) → on_truth place further value.now locals ≡ where_truth place further result locals }
{
    match value.node() {
        Node::Bool(truth) => Some(*truth),
        _ => None,
    }
}

/// What the value of a condition decides, which has to be a truth value.
pub fn on_truth<'t>(used: TruthUse<'t>, place: Place, value: Value) -> Decided<'t>
    ensures { (setting : Setting) (locals : Locals) → decided_code setting locals result ≡ on_truth place (truth_use setting.spec used.entry place) value locals }
{
    match truth_of(&value) {
        Some(truth) => decided_for(used, place, truth),
        None => Decided::Known(Step::Fail(RunFault::TypeFault, place)),
    }
}

fn decided_for<'t>(used: TruthUse<'t>, place: Place, b: bool) -> Decided<'t>
    ensures { (setting : Setting) (locals : Locals) → decided_code setting locals result ≡ truth_use setting.spec used.entry place b locals }
{
    match used {
        TruthUse::Branch(here, tree, more, otherwise) => {
            Decided::Known(branch(here, tree, more, otherwise, place, b))
        }
        TruthUse::Left(here, sign, right) => {
            Decided::Known(left_truth(here, sign, right, place, b))
        }
        TruthUse::Right => Decided::Known(truth(b)),
        TruthUse::Choice(search) => Decided::Chosen(search, b),
        TruthUse::Pre(applying) => Decided::Pre(applying, b),
        TruthUse::Post(applying, result) => Decided::Post(applying, result, b),
        TruthUse::Invariant(asking) => Decided::Invariant(asking, b),
    }
}

/// A sign between two operands: that of a strict operator, or one that stops when decided.
pub fn infix<'t>(
    here: Here<'t>,
    left: &'t Box<Expr>,
    sign: Sign,
    right: &'t Box<Expr>,
    place: Place,
) -> Step<'t>
    ensures { (setting : Setting) (locals : Locals) → code_of setting locals result ≡ joined_by (here_of here.entry) (sign_operator sign) (boxed_view left.entry.now) sign (boxed_view right.entry.now) place locals }
{
    match sign.operator() {
        Some(operator) => between(here, left, operator, right, place),
        None => part_for(
            here,
            left,
            Use::Truth(TruthUse::Left(here, sign, right)),
            place,
        ),
    }
}

/// The left operand of a sign that stops when decided has this truth value.
pub fn left_truth<'t>(
    here: Here<'t>,
    sign: Sign,
    right: &'t Box<Expr>,
    place: Place,
    b: bool,
) -> Step<'t>
    ensures { (setting : Setting) (locals : Locals) → code_of setting locals result ≡ right_truth (here_of here.entry) sign (boxed_view right.entry.now) place b locals }
{
    match decided_by(sign, b) {
        Some(b) => truth(b),
        None => part_for(here, right, Use::Truth(TruthUse::Right), place),
    }
}

/// The value that the left operand decides, where it decides.
fn decided_by(sign: Sign, b: bool) -> Option<bool>
    ensures { result ≡ decided_by sign b }
{
    match (sign, b) {
        (Sign::And, false) => Some(false),
        (Sign::Or, true) => Some(true),
        (Sign::Implies, false) => Some(true),
        _ => None,
    }
}

/// The truth value is that of the node.
pub fn truth<'t>(b: bool) -> Step<'t>
    ensures { (setting : Setting) (locals : Locals) → code_of setting locals result ≡ truth b locals }
{
    Step::value(Value::new(Node::Bool(b)))
}
