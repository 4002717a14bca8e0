// What came of an expression whose value is wanted.

ghost use Rattle.std.specs.Prelude.{◌≡◌, ℤ, Bool};
ghost use Rattle.vdm_kinds.specs.declared.place.Place.{Place as PlaceOf};
ghost use Rattle.abstract_syntax.specs.Values.{ValueTree};
ghost use Rattle.node_meaning.specs.Envs.{Locals};
ghost use Rattle.node_meaning.specs.Matching.{on_truth};
ghost use Rattle.stmt_meaning.specs.Loops.{on_number};
ghost use Rattle.node_meaning.specs.Tasks.{Code, with_value};
ghost use Rattle.eval_data.specs.Parts.{flow_of};
ghost use Rattle.flow_values.specs.Came.{came_code, number_code, truth_code};

use eval_data::Flow;
use vdm_kinds::{Place, RunFault};
use vdm_values::{Node, Slot, Value};

/// What came of an expression whose value is wanted.
#[derive(Drop)]
pub enum Came {
    Is(Value),
    /// There is no value, which is a fault.
    Nothing,
    /// An exit with this value, at this place.
    Exits(Value, Place),
}

/// What came of a condition.
#[derive(Drop)]
pub enum Truth {
    Is(bool),
    Fails(RunFault),
    /// An exit with this value, at this place.
    Exits(Value, Place),
}

/// What came of an expression whose value has to be a number.
#[derive(Drop)]
pub enum Number {
    Is(i128),
    Fails(RunFault),
    /// An exit with this value, at this place.
    Exits(Value, Place),
}

/// The value that came.
pub fn value_in(flow: Flow) -> Came
    ensures { (place : PlaceOf) (further : ValueTree → Locals → Code) (locals : Locals) → came_code place further locals result ≡ with_value place further (flow_of flow locals) }
{
    match flow {
        Flow::Gave(Slot::Held(value)) => Came::Is(value),
        Flow::Gave(Slot::Unset) => Came::Nothing,
        Flow::Next => Came::Nothing,
        Flow::Returned(_slot) => Came::Nothing,
        Flow::Exited(value, from) => Came::Exits(value, from),
    }
}

/// The truth value that came; any other value is a fault.
pub fn truth_in(flow: Flow) -> Truth
    ensures { (place : PlaceOf) (further : Bool → Locals → Code) (locals : Locals) → truth_code place further locals result ≡ with_value place (on_truth place further) (flow_of flow locals) }
{
    match flow {
        Flow::Gave(Slot::Held(value)) => truth_of(&value),
        Flow::Gave(Slot::Unset) => Truth::Fails(RunFault::Undefined),
        Flow::Next => Truth::Fails(RunFault::Undefined),
        Flow::Returned(_slot) => Truth::Fails(RunFault::Undefined),
        Flow::Exited(value, from) => Truth::Exits(value, from),
    }
}

fn truth_of(value: &Value) -> Truth
    ensures { (place : PlaceOf) (further : Bool → Locals → Code) (locals : Locals) → truth_code place further locals result ≡ on_truth place further value.now locals }
{
    match value.node() {
        Node::Bool(b) => Truth::Is(*b),
        _ => Truth::Fails(RunFault::TypeFault),
    }
}

/// The number that came; any other value is a fault.
pub fn number_in(flow: Flow) -> Number
    ensures { (place : PlaceOf) (further : ℤ → Locals → Code) (locals : Locals) → number_code place further locals result ≡ with_value place (on_number place further) (flow_of flow locals) }
{
    match flow {
        Flow::Gave(Slot::Held(value)) => number_of(&value),
        Flow::Gave(Slot::Unset) => Number::Fails(RunFault::Undefined),
        Flow::Next => Number::Fails(RunFault::Undefined),
        Flow::Returned(_slot) => Number::Fails(RunFault::Undefined),
        Flow::Exited(value, from) => Number::Exits(value, from),
    }
}

fn number_of(value: &Value) -> Number
    ensures { (place : PlaceOf) (further : ℤ → Locals → Code) (locals : Locals) → number_code place further locals result ≡ on_number place further value.now locals }
{
    match value.node() {
        Node::Int(n) => Number::Is(*n),
        _ => Number::Fails(RunFault::TypeFault),
    }
}
