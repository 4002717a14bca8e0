// How many tokens are left behind brackets.

ghost use Rattle.std.specs.Prelude.{◌≡◌, ◌+◌, ◌≤◌, List, ◌∷◌, ◌++◌, [], if◌then◌else◌, length, slice_get, IfOk};
ghost use Rattle.grammar_words.specs.Tokens.{Token as TokenTree, word_of};
ghost use Rattle.grammar_tokens.specs.View.{token_views};
ghost use Rattle.leaf_reader.specs.Closers.{AreCounts, next_count};

use crate::words::word_of;
use grammar_tokens::Token;
use grammar_words::Word;
use std::alloc::Global;
use vdm_kinds::OutOfMemory;

/// For each number of tokens that are left, how many are left behind the bracket that closes the one open before them. Blocks
/// may stand in blocks, so to look for that bracket each time would cost a step for each token and each block around it.
#[derive(Drop)]
pub(crate) struct Closers {
    // Where memory runs out, those of the last tokens alone.
    counts: Vec<usize>,
}

impl Closers {
    /// Those of tokens, the next of which is the last.
    pub(crate) fn new(alloc: Global, items: &[Token]) -> Closers
        ensures { AreCounts result.counts.items (token_views items.now) }
    {
        match counted(alloc, items) {
            Ok(counts) => Closers { counts },
            Err(OutOfMemory) => Closers {
                counts: Vec::new(alloc),
            },
        }
    }

    /// How many are left behind the bracket where so many are left, if that was counted.
    pub(crate) fn get(&self, left: usize) -> Option<usize>
        ensures { result ≡ slice_get self.now.counts.items left }
    {
        self.counts.as_slice().get(left).copied()
    }

    /// A word comes before so many tokens.
    pub(crate) fn put(&mut self, left: usize, word: Word)
        ensures { (items : List TokenTree) (token : TokenTree) → left ≡ length items → word ≡ word_of token
            → AreCounts self.old.counts.items items → AreCounts self.new.counts.items (items ++ token ∷ []) }
    {
        if self.counts.len() <= left {
            return;
        }
        self.counts.truncate(left + 1);
        push_next(&mut self.counts, word);
    }
}

/// The count where a word comes before so many tokens, if theirs are there.
fn next_count(word: Word, left: usize, counts: &[usize]) -> Option<usize>
    ensures { result ≡ next_count word left counts.now }
{
    match word {
        Word::OpenRound => {
            let behind = *counts.get(left)?;
            counts.get(behind).copied()
        }
        Word::CloseRound => Some(left),
        _ => counts.get(left).copied(),
    }
}

/// Counts on where a word comes before all tokens that are counted. Says whether it does.
fn push_next(counts: &mut Vec<usize>, word: Word) -> bool
    ensures counts { (items : List TokenTree) (token : TokenTree) → length counts.old.items ≡ length items + 1 → word ≡ word_of token
        → AreCounts counts.old.items items → AreCounts counts.new.items (items ++ token ∷ []) }
    ensures length { length counts.new.items ≡ (if result then length counts.old.items + 1 else length counts.old.items) }
{
    let Some(left) = counts.len().checked_sub(1) else {
        return false;
    };
    let Some(count) = next_count(word, left, counts) else {
        return false;
    };
    counts.push(count).is_ok()
}

/// The counts of tokens, the next of which is the last.
fn counted(alloc: Global, items: &[Token]) -> Result<Vec<usize>, OutOfMemory>
    ensures { IfOk result (λ counts. AreCounts counts.items (token_views items.now)) }
{
    let mut counts = Vec::with_capacity(alloc, items.len().saturating_add(1))?;
    counts.push(0)?;
    for token in items {
        if !push_next(&mut counts, word_of(token)) {
            return Ok(counts);
        }
    }
    Ok(counts)
}
