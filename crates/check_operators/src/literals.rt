// The forms of literals.

ghost use Rattle.std.specs.Prelude.{◌≡◌, IfOk};
ghost use Rattle.class_checks.specs.Expressions.{literal_form};
ghost use Rattle.class_checks.specs.Operators.{sequence_with};
ghost use Rattle.form_meaning.specs.Forms.{character_alt, only};
ghost use Rattle.type_tree.specs.LiteralView.{literal_view};

use crate::kind::Kind;
use crate::making::sequence_with;
use std::alloc::Global;
use type_forms::{Alt, Form};
use type_tree::Literal;
use vdm_kinds::OutOfMemory;

/// The form of what a literal stands for.
pub fn literal_form(alloc: Global, literal: &Literal) -> Result<Form, OutOfMemory>
    ensures { IfOk result (λ f. f ≡ literal_form (literal_view literal.now)) }
{
    match literal {
        Literal::Whole(_) => Kind::Number.form(alloc),
        Literal::Character(_) => Form::only(alloc, Alt::Character),
        Literal::Text(_) => text_form(alloc),
        Literal::Quote(name) => Form::only(alloc, Alt::Quote(*name)),
        Literal::Bool(_) => Kind::Truth.form(alloc),
        Literal::Nil => Form::only(alloc, Alt::Nil),
    }
}

fn text_form(alloc: Global) -> Result<Form, OutOfMemory>
    ensures { IfOk result (λ f. f ≡ sequence_with (only character_alt)) }
{
    let character = Form::only(alloc, Alt::Character)?;
    sequence_with(alloc, character)
}
