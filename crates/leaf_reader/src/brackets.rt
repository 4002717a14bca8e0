// Whether a bracket begins a call.

ghost use Rattle.std.specs.Prelude.{◌≡◌, ℕ, ◌+◌, ◌<◌, ◌≤◌, IfSome, List, reverse, take};
ghost use Rattle.grammar_words.specs.Tokens.{Token as TokenTree};
ghost use Rattle.grammar_tokens.specs.View.{token_views};
ghost use Rattle.stmt_reading.specs.Statements.{at_bracket, begins_call, behind_bracket};
ghost use Rattle.leaf_reader.specs.Reads.{within};

use crate::source::{Source, place_of};
use crate::words::word_of;
use grammar_tokens::Token;
use grammar_words::Word;

/// How many brackets are open behind a word, with so many open before it round which one more is; none where the word
/// closes that one.
fn open_behind(word: Word, inside: usize) -> Option<usize>
    requires { inside < usize.MAX }
    ensures counted { (next : ℕ → List TokenTree) (tokens : List TokenTree) → at_bracket word inside next tokens ≡ within result next tokens }
    ensures bounded { IfSome result (λ now. now ≤ inside + 1) }
{
    match word {
        Word::OpenRound => Some(inside + 1),
        Word::CloseRound => inside.checked_sub(1),
        _ => Some(inside),
    }
}

/// What stands behind the bracket that closes the one that is open. The first token is the last of these.
fn behind_bracket(items: &[Token]) -> &[Token]
    ensures { reverse (token_views result.now) ≡ behind_bracket 0 (reverse (token_views items.now)) }
{
    let mut inside = 0;
    let mut rest = items;
    while let Some((next, others)) = rest.split_last() {
        match open_behind(word_of(next), inside) {
            Some(now) => inside = now,
            None => return others,
        }
        rest = others;
    }
    rest
}

/// So many of the tokens, or all.
fn first_of(items: &[Token], left: usize) -> &[Token]
    ensures { result.now ≡ take left items.now }
{
    if left < items.len() {
        &items[..left]
    } else {
        items
    }
}

impl Source {
    /// What stands behind the bracket that closes the one open before these tokens. The first token is the last of these.
    fn behind_bracket(&self) -> &[Token]
        ensures { reverse (token_views result.now) ≡ behind_bracket 0 self.now }
    {
        match self.closers.get(self.items.len()) {
            Some(left) => first_of(&self.items, left),
            None => behind_bracket(&self.items),
        }
    }

    /// Whether a `(` before these tokens begins a call: a postfix stands behind the `)` that closes it.
    pub fn begins_call(&self) -> bool
        ensures { result ≡ begins_call self.now }
    {
        let behind = self.behind_bracket();
        place_of(Word::OpenRound, behind).is_some()
            || place_of(Word::Dot, behind).is_some()
            || place_of(Word::DotNumber, behind).is_some()
    }
}
