// Literals as values.

ghost use Rattle.std.specs.Prelude.{◌≡◌, IfOk, map};
ghost use Rattle.abstract_syntax.specs.Values.{character, sequence, value_trees};
ghost use Rattle.pattern_meaning.specs.Ways.{literal_value};
ghost use Rattle.type_tree.specs.LiteralView.{literal_view};
ghost use Rattle.value_operators.specs.Outcomes.{Gives, sized as sized_outcome};
ghost use Rattle.node_meaning.specs.Envs.{Locals};
ghost use Rattle.node_meaning.specs.Needs.{Setting};
ghost use Rattle.node_meaning.specs.Tasks.{value_or_fault};
ghost use Rattle.eval_data.specs.Steps.{code_of};

use crate::outcome::outcome_step;
use eval_data::Step;
use expr_tree::Literal;
use std::alloc::Global;
use value_results::sized;
use vdm_kinds::{Halt, OutOfMemory, Place, RunFault};
use vdm_values::{Node, Value};

/// The value of the literal at the place.
pub fn literal<'t>(alloc: Global, literal: &Literal, place: Place) -> Result<Step<'t>, OutOfMemory>
    ensures { IfOk result (λ s. (setting : Setting) (locals : Locals) → code_of setting locals s ≡ value_or_fault place (sized_outcome (literal_value (literal_view literal.now))) locals) }
{
    outcome_step(literal_value(alloc, literal), place)
}

/// The value of the literal. Only a text may be past the limits of size.
fn literal_value(alloc: Global, literal: &Literal) -> Result<Value, Halt<RunFault>>
    ensures { Gives result (sized_outcome (literal_value (literal_view literal.now))) }
{
    match literal {
        Literal::Whole(number) => Ok(Value::new(Node::Int(*number))),
        Literal::Character(c) => Ok(Value::new(Node::Char(*c))),
        Literal::Text(characters) => text(alloc, characters.as_slice()),
        Literal::Quote(name) => Ok(Value::new(Node::Quote(*name))),
        Literal::Bool(truth) => Ok(Value::new(Node::Bool(*truth))),
        Literal::Nil => Ok(Value::new(Node::Nil)),
    }
}

/// The sequence of the characters.
fn text(alloc: Global, characters: &[char]) -> Result<Value, Halt<RunFault>>
    ensures { Gives result (sized_outcome (sequence (value_trees (map character characters.now)))) }
{
    let items = character_values(alloc, characters)?;
    sized(Value::new(Node::Seq(items)))
}

fn character_values(alloc: Global, characters: &[char]) -> Result<Vec<Value>, OutOfMemory>
    ensures { IfOk result (λ values. values.items ≡ map character characters.now) }
{
    let mut values = Vec::with_capacity(alloc, characters.len())?;
    for c in characters {
        values.push(Value::new(Node::Char(*c)))?;
    }
    Ok(values)
}
