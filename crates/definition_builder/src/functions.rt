// Functions.

ghost use Rattle.stmt_reading.specs.Definitions.{arrow_in, function_in};
ghost use Rattle.vdm_tree.specs.ClassView.{function_view};
ghost use Rattle.leaf_reader.specs.Reads.{Reads, same};

use definition_parts::{function_body, named_patterns, parameters_of, read_head};
use grammar_words::Word;
use leaf_reader::{NoTree, Source};
use std::alloc::Global;
use stmt_parts::expr_behind;
use vdm_kinds::{Halt, Place};
use vdm_tree::FunctionDef;

/// Takes `->` or `+>`.
fn arrow(source: &mut Source) -> Result<Place, Halt<NoTree>>
    ensures { Reads result same (arrow_in source.old) source.new }
{
    if let Some(place) = source.take_word(Word::Arrow) {
        return Ok(place);
    }
    source.word(Word::TotalArrow)
}

/// Takes a function.
pub(crate) fn function(alloc: Global, source: &mut Source) -> Result<FunctionDef, Halt<NoTree>>
    ensures { Reads result function_view (function_in source.old) source.new }
{
    let head = read_head(source)?;
    source.word(Word::Colon)?;
    let parameters = parameters_of(alloc, source)?;
    arrow(source)?;
    let result_type = source.type_expr(alloc)?;
    let patterns = named_patterns(alloc, head.name, source)?;
    let body = function_body(alloc, source)?;
    let pre = expr_behind(alloc, source, Word::Pre)?;
    let post = expr_behind(alloc, source, Word::Post)?;
    let measure = expr_behind(alloc, source, Word::Measure)?;
    Ok(FunctionDef {
        access: head.access,
        name: head.name,
        name_place: head.name_place,
        parameters,
        result_type,
        patterns,
        body,
        pre,
        post,
        measure,
        place: head.place,
    })
}
