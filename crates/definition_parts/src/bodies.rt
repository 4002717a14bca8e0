// Bodies of functions and operations.

ghost use Rattle.std.specs.Prelude.{◌≡◌};
ghost use Rattle.abstract_syntax.specs.Expressions.{ExprTree};
ghost use Rattle.abstract_syntax.specs.Statements.{StmtTree};
ghost use Rattle.expr_tree.specs.View.{boxed_view};
ghost use Rattle.vdm_tree.specs.ClassView.{body_view};
ghost use Rattle.stmt_reading.specs.Leaves.{expr_in};
ghost use Rattle.stmt_reading.specs.Definitions.{body_of, open_in};
ghost use Rattle.leaf_reader.specs.Reads.{Reads};
ghost use Rattle.definition_parts.specs.Parts.{unwritten_view};

use grammar_words::Word;
use leaf_reader::{NoTree, Source};
use std::alloc::Global;
use vdm_kinds::{Halt, Sign};
use vdm_tree::{Body, Expr};

/// Why there is no body.
#[derive(Clone, Copy, Debug)]
pub enum Unwritten {
    NotYetSpecified,
    SubclassResponsibility,
}

/// Takes what stands behind `is` in place of a body.
pub fn missing_body(source: &mut Source) -> Result<Unwritten, Halt<NoTree>>
    ensures of_function { Reads result unwritten_view (open_in {A = ExprTree} source.old) source.new }
    ensures of_operation { Reads result unwritten_view (open_in {A = StmtTree} source.old) source.new }
{
    if source.take_word(Word::Operator(Sign::Not)).is_some() {
        source.word(Word::Yet)?;
        source.word(Word::Specified)?;
        return Ok(Unwritten::NotYetSpecified);
    }
    source.word(Word::Subclass)?;
    source.word(Word::Responsibility)?;
    Ok(Unwritten::SubclassResponsibility)
}

/// The body that there is none of.
pub fn no_body<T>(unwritten: Unwritten) -> Body<T>
    ensures of_function { (view : T → ExprTree) → body_view view result ≡ unwritten_view unwritten }
    ensures of_operation { (view : T → StmtTree) → body_view view result ≡ unwritten_view unwritten }
{
    match unwritten {
        Unwritten::NotYetSpecified => Body::NotYetSpecified,
        Unwritten::SubclassResponsibility => Body::SubclassResponsibility,
    }
}

/// Takes the body of a function.
pub fn function_body(alloc: Global, source: &mut Source) -> Result<Body<Box<Expr>>, Halt<NoTree>>
    ensures { Reads result (body_view boxed_view) (body_of expr_in source.old) source.new }
{
    if source.take_word(Word::Is).is_some() {
        return Ok(no_body(missing_body(source)?));
    }
    Ok(Body::Written(source.expr(alloc)?))
}
