// What stands between `let` and the statement behind its `in`.

ghost use Rattle.std.specs.Prelude.{◌≡◌, ◌||◌, List, [], ◌∷◌, IfOk};
ghost use Rattle.grammar_words.specs.Tokens.{Token};
ghost use Rattle.abstract_syntax.specs.Statements.{StmtTree};
ghost use Rattle.expr_tree.specs.View.{pattern_view, pattern_views};
ghost use Rattle.grammar_words.specs.declared.word.Word.TheVariants as word_is;
ghost use Rattle.vdm_kinds.specs.declared.sign.Sign.TheVariants.{Equal};
ghost use Rattle.stmt_reading.specs.Leaves.{Read, further, pattern_in, turns_for, word_in};
ghost use Rattle.stmt_reading.specs.Statements.{is_there, let_in_stmt};
ghost use Rattle.leaf_reader.specs.Reads.{Reads};
ghost use Rattle.stmt_parts.specs.Lists.{added, definitions_view};
ghost use Rattle.stmt_openings.specs.Lets.{definitions_in, let_bound, let_defined};
ghost use Rattle.stmt_openings.specs.Openings.{Opens};

use crate::header::Header;
use crate::opening::Opening;
use expr_tree::{Bind, Defined, Pattern};
use grammar_words::Word;
use leaf_reader::{NoTree, Source};
use std::alloc::Global;
use stmt_parts::{further_definitions, further_patterns, push_defined, such_that};
use vdm_kinds::{Halt, OutOfMemory, Place, Sign};

/// The list of one pattern.
fn listed(alloc: Global, pattern: Box<Pattern>) -> Result<Vec<Pattern>, OutOfMemory>
    ensures { IfOk result (λ patterns. pattern_views patterns.items ≡ pattern_view pattern.value ∷ []) }
{
    let mut patterns = Vec::new(alloc);
    patterns.push(Box::into_inner(pattern))?;
    Ok(patterns)
}

/// Definitions with a comma between each two, whose first pattern was read.
fn definitions(
    alloc: Global,
    source: &mut Source,
    pattern: Box<Pattern>,
) -> Result<Vec<Defined>, Halt<NoTree>>
    ensures { Reads result definitions_view (definitions_in (pattern_view pattern.value) source.old) source.new }
{
    let mut definitions = Vec::new(alloc);
    push_defined(alloc, source, pattern, &mut definitions)?;
    let turns = source.len() + 1;
    further_definitions(alloc, source, turns, definitions)
}

/// `p : T = a, q = b in`, whose first pattern was read.
#[tactic(auto, using(crate::proofs::LetLists::same_definitions))]
fn defined_opening(
    alloc: Global,
    source: &mut Source,
    place: Place,
    pattern: Box<Pattern>,
) -> Result<Opening, Halt<NoTree>>
    ensures { (one : List Token → Read StmtTree) → Opens result one (let_defined one place (definitions_in (pattern_view pattern.value) source.old)) source.new }
{
    let definitions = definitions(alloc, source, pattern)?;
    source.word(Word::In)?;
    Ok(Opening::Body(Header::Let(definitions, place)))
}

/// `p, q in set S be st c in`, whose first pattern was read.
#[tactic(auto, using(crate::proofs::LetLists::same_patterns))]
fn bound_opening(
    alloc: Global,
    source: &mut Source,
    place: Place,
    pattern: Box<Pattern>,
) -> Result<Opening, Halt<NoTree>>
    ensures { (one : List Token → Read StmtTree) → Opens result one (let_bound one place (added (pattern_view pattern.value ∷ []) (further word_is.Comma pattern_in (turns_for source.old) source.old))) source.new }
{
    let first = listed(alloc, pattern)?;
    let turns = source.len() + 1;
    let patterns = further_patterns(alloc, source, turns, first)?;
    source.word(Word::Operator(Sign::InSet))?;
    let set = source.expr(alloc)?;
    let condition = such_that(alloc, source)?;
    source.word(Word::In)?;
    let bind = Box::new(alloc, Bind::new(patterns, set))?;
    Ok(Opening::Body(Header::LetBe(bind, condition, place)))
}

/// Whether a pattern before these tokens begins a definition: a `:` or a `=` comes next.
fn begins_definition(source: &Source) -> bool
    ensures { result ≡ (is_there (word_in word_is.Colon source.now) || is_there (word_in (word_is.Operator Equal) source.now)) }
{
    source.is_next(Word::Colon) || source.is_next(Word::Operator(Sign::Equal))
}

/// What stands between `let` and the statement behind its `in`. A `:` or a `=` behind the first pattern tells definitions
/// from a bind.
pub(crate) fn let_opening(
    alloc: Global,
    source: &mut Source,
    place: Place,
) -> Result<Opening, Halt<NoTree>>
    ensures { (one : List Token → Read StmtTree) → Opens result one (let_in_stmt one place source.old) source.new }
{
    let pattern = source.boxed_pattern(alloc)?;
    if begins_definition(source) {
        defined_opening(alloc, source, place, pattern)
    } else {
        bound_opening(alloc, source, place, pattern)
    }
}
