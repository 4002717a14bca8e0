// Patterns with a comma between each two.

ghost use Rattle.std.specs.Prelude.{◌≡◌};
ghost use Rattle.grammar_words.specs.declared.word.Word.TheVariants as word_is;
ghost use Rattle.expr_tree.specs.View.{pattern_views};
ghost use Rattle.stmt_reading.specs.Leaves.{pattern_in, further, list_in, turns_for};
ghost use Rattle.stmt_reading.specs.Statements.{patterns_in};
ghost use Rattle.leaf_reader.specs.Reads.{Reads};
ghost use Rattle.stmt_parts.specs.Lists.{added, one_added, patterns_listed, patterns_view};

use expr_tree::Pattern;
use grammar_words::Word;
use leaf_reader::{NO_TREE, NoTree, Source};
use std::alloc::Global;
use vdm_kinds::Halt;

/// One pattern more.
fn push_pattern(
    alloc: Global,
    source: &mut Source,
    patterns: &mut Vec<Pattern>,
) -> Result<(), Halt<NoTree>>
    ensures { Reads result (λ _. pattern_views patterns.new.items) (one_added (pattern_views patterns.old.items) (pattern_in source.old)) source.new }
{
    Ok(patterns.push(source.pattern(alloc)?)?)
}

/// At most so many further patterns, each behind a comma.
pub fn further_patterns(
    alloc: Global,
    source: &mut Source,
    turns: usize,
    patterns: Vec<Pattern>,
) -> Result<Vec<Pattern>, Halt<NoTree>>
    ensures { Reads result patterns_listed (added (pattern_views patterns.items) (further word_is.Comma pattern_in turns source.old)) source.new }
{
    let mut patterns = patterns;
    for _turn in 0..turns {
        let Some(_place) = source.take_word(Word::Comma) else {
            return Ok(patterns);
        };
        push_pattern(alloc, source, &mut patterns)?;
    }
    Err(NO_TREE)
}

/// One pattern or more, with a comma between each two, as a list.
fn listed_patterns(alloc: Global, source: &mut Source) -> Result<Vec<Pattern>, Halt<NoTree>>
    ensures { Reads result patterns_listed (list_in word_is.Comma pattern_in source.old) source.new }
{
    // Each takes a token or more, so that there are turns enough.
    let turns = source.len() + 1;
    let mut patterns = Vec::new(alloc);
    push_pattern(alloc, source, &mut patterns)?;
    further_patterns(alloc, source, turns, patterns)
}

/// One pattern or more, with a comma between each two.
#[tactic(auto, using(crate::proofs::Trees::same_patterns))]
pub fn read_patterns(alloc: Global, source: &mut Source) -> Result<Vec<Pattern>, Halt<NoTree>>
    ensures { Reads result patterns_view (patterns_in source.old) source.new }
{
    let patterns = listed_patterns(alloc, source)?;
    Ok(patterns)
}
