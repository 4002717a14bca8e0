// Operations.

ghost use Rattle.stmt_reading.specs.Definitions.{body_of, operation_in, statement_in};
ghost use Rattle.vdm_tree.specs.ClassView.{body_view, operation_view};
ghost use Rattle.vdm_tree.specs.StmtView.{boxed_stmt};
ghost use Rattle.leaf_reader.specs.Reads.{Reads};

use definition_parts::{
    missing_body, named_patterns, no_body, parameters_of, read_head, result_type,
};
use grammar_words::Word;
use leaf_reader::{NoTree, Source};
use std::alloc::Global;
use stmt_builder::read_stmt;
use stmt_parts::expr_behind;
use vdm_kinds::Halt;
use vdm_tree::{Body, OpDef, Stmt};

/// Takes the body of an operation.
fn operation_body(alloc: Global, source: &mut Source) -> Result<Body<Box<Stmt>>, Halt<NoTree>>
    ensures { Reads result (body_view boxed_stmt) (body_of statement_in source.old) source.new }
{
    if source.take_word(Word::Is).is_some() {
        return Ok(no_body(missing_body(source)?));
    }
    Ok(Body::Written(read_stmt(alloc, source)?))
}

/// Takes an operation.
pub(crate) fn operation(alloc: Global, source: &mut Source) -> Result<OpDef, Halt<NoTree>>
    ensures { Reads result operation_view (operation_in source.old) source.new }
{
    let head = read_head(source)?;
    source.word(Word::Colon)?;
    let parameters = parameters_of(alloc, source)?;
    source.word(Word::DoubleArrow)?;
    let result_type = result_type(alloc, source)?;
    let patterns = named_patterns(alloc, head.name, source)?;
    let body = operation_body(alloc, source)?;
    let pre = expr_behind(alloc, source, Word::Pre)?;
    let post = expr_behind(alloc, source, Word::Post)?;
    Ok(OpDef {
        access: head.access,
        name: head.name,
        name_place: head.name_place,
        parameters,
        result_type,
        patterns,
        body,
        pre,
        post,
        place: head.place,
    })
}
