// The types and the patterns of parameters, and the types of results.

ghost use Rattle.std.specs.Prelude.{◌≡◌, ◌∷◌, IfOk, option_map};
ghost use Rattle.type_tree.specs.TypeView.{type_view, type_views};
ghost use Rattle.grammar_words.specs.declared.word.Word.TheVariants.{Comma};
ghost use Rattle.grammar_tokens.specs.View.{token_view};
ghost use Rattle.stmt_reading.specs.Leaves.{list_in, pattern_in};
ghost use Rattle.stmt_reading.specs.Definitions.{brackets_in, factors_of, parameters_in, patterns_of, result_in};
ghost use Rattle.leaf_reader.specs.Reads.{Reads, Takes, same};
ghost use Rattle.definition_parts.specs.Parts.{patterns_view, types_view};

use grammar_tokens::Token;
use grammar_words::Word;
use leaf_reader::{NoTree, Source, is_word, word_of};
use std::alloc::Global;
use std::mem;
use stmt_parts::read_patterns;
use type_tree::TypeExpr;
use vdm_kinds::{Halt, Name, OutOfMemory, Place};
use vdm_tree::Pattern;

/// Takes `)` where it comes next and the token before it is `(`, and gives its place. Else nothing changes.
#[tactic(auto, using(crate::proofs::Closing::bracket_at))]
fn close_behind(first: &Token, source: &mut Source) -> Option<Place>
    ensures { Takes result same (brackets_in (token_view first.now ∷ source.old)) source.old source.new }
{
    if is_word(Word::OpenRound, word_of(first)) {
        source.take_word(Word::CloseRound)
    } else {
        None
    }
}

/// Takes `()` where both come next, and gives the place of the second. Else nothing changes.
fn take_brackets(source: &mut Source) -> Result<Option<Place>, OutOfMemory>
    ensures { IfOk result (λ found. Takes found same (brackets_in source.old) source.old source.new) }
{
    let Some(first) = source.take() else {
        return Ok(None);
    };
    match close_behind(&first, source) {
        Some(close) => Ok(Some(close)),
        None => {
            source.put_back(first)?;
            Ok(None)
        }
    }
}

/// Takes the types of parameters.
pub fn parameters_of(alloc: Global, source: &mut Source) -> Result<Vec<TypeExpr>, Halt<NoTree>>
    ensures { Reads result types_view (parameters_in source.old) source.new }
{
    if take_brackets(source)?.is_some() {
        return Ok(Vec::new(alloc));
    }
    let declared = source.type_expr(alloc)?;
    Ok(factors(alloc, declared)?)
}

/// The factors of an unbracketed product, or the type alone.
fn factors(alloc: Global, declared: TypeExpr) -> Result<Vec<TypeExpr>, OutOfMemory>
    ensures { IfOk result (λ factors. type_views factors.items ≡ factors_of (type_view declared)) }
{
    let mut declared = declared;
    if let TypeExpr::Product(factors, _) = &mut declared {
        return Ok(mem::replace(factors, Vec::new(alloc)));
    }
    let mut alone = Vec::new(alloc);
    alone.push(declared)?;
    Ok(alone)
}

/// Takes the type of a result, which `()` has none of.
pub fn result_type(alloc: Global, source: &mut Source) -> Result<Option<TypeExpr>, Halt<NoTree>>
    ensures { Reads result (option_map type_view) (result_in source.old) source.new }
{
    if take_brackets(source)?.is_some() {
        return Ok(None);
    }
    Ok(Some(source.type_expr(alloc)?))
}

/// Takes this name, the patterns of parameters in brackets, and `==`.
pub fn named_patterns(
    alloc: Global,
    name: Name,
    source: &mut Source,
) -> Result<Vec<Pattern>, Halt<NoTree>>
    ensures { Reads result patterns_view (patterns_of name source.old) source.new }
{
    source.name_again(name)?;
    if take_brackets(source)?.is_some() {
        source.word(Word::DoubleEqual)?;
        return Ok(Vec::new(alloc));
    }
    source.word(Word::OpenRound)?;
    let patterns = patterns(alloc, source)?;
    source.word(Word::CloseRound)?;
    source.word(Word::DoubleEqual)?;
    Ok(patterns)
}

/// Takes patterns with a `,` between each two.
fn patterns(alloc: Global, source: &mut Source) -> Result<Vec<Pattern>, Halt<NoTree>>
    ensures { Reads result patterns_view (list_in Comma pattern_in source.old) source.new }
{
    read_patterns(alloc, source)
}
