// Reads how far tokens are the beginning of a statement or a specification.

ghost use Rattle.std.specs.Prelude.{◌≡◌, ◌+◌, List, [], ◌∷◌, map, IfOk};
ghost use Rattle.grammar_words.specs.Tokens.{Token as TokenOf};
ghost use Rattle.grammar_tokens.specs.View.{token_view, token_views};
ghost use Rattle.stmt_fronts.specs.declared.kind.Kind.TheVariants.{Spec};
ghost use Rattle.stmt_fronts.specs.Fronts as fronts;
ghost use Rattle.stmt_front_reader.specs.Steps.{found};
ghost use Rattle.stmt_front_reader.specs.Held.{alive_views};

use crate::alive::Alive;
use crate::item::{item_of_token, item_of_word};
use crate::readings::Next;
use grammar_fronts::Front;
use grammar_tokens::Token;
use grammar_words::PlacedWord;
use std::alloc::Global;
use stmt_fronts::Kind;
use vdm_kinds::{OutOfMemory, Part, Place};

/// Where the first of no tokens stands.
fn no_place() -> Place
    ensures { result ≡ fronts.place_of [] }
{
    Place {
        part: Part::Spec,
        line: 1,
        column: 1,
    }
}

/// How far the words are the beginning of a statement. It takes memory for what is wanted and for the nodes that are open, and
/// time for each word once in each way in which those before can be read.
pub fn front_of_words(alloc: Global, words: &[PlacedWord]) -> Result<Front, OutOfMemory>
    ensures { IfOk result (λ front. front ≡ fronts.front_of_words words.now) }
{
    let first = words.first().map_or(no_place(), |word| word.place);
    let mut alive = Alive::new(alloc, Kind::Stmt, first)?;
    words_on(alloc, &mut alive, words)
}

/// How far the words go on with what was begun.
fn words_on(alloc: Global, alive: &mut Alive, words: &[PlacedWord]) -> Result<Front, OutOfMemory>
    ensures { IfOk result (λ front. front ≡ fronts.front_from 0 (map fronts.bare words.now) (alive_views alive.old)) }
{
    for (count, word) in words.iter().enumerate() {
        match word_on(alloc, alive, count, *word)? {
            Next::GoesOn => {}
            Next::Found(front) => return Ok(front),
        }
    }
    alive.finish(alloc, words.len())
}

/// A word behind so many others.
fn word_on(
    alloc: Global,
    alive: &mut Alive,
    count: usize,
    word: PlacedWord,
) -> Result<Next, OutOfMemory>
    ensures { IfOk result (λ next. (tokens : List TokenOf) → fronts.front_from count (fronts.bare word ∷ tokens) (alive_views alive.old)
        ≡ found next (alive_views alive.new) (fronts.front_from (count + 1) tokens)) }
{
    alive.step(alloc, count, item_of_word(word))
}

/// How far the tokens are the beginning of a specification, in the same time.
pub fn front_of_tokens(alloc: Global, tokens: &[Token]) -> Result<Front, OutOfMemory>
    ensures { IfOk result (λ front. front ≡ fronts.front_of Spec (token_views tokens.now)) }
{
    let first = tokens
        .first()
        .map_or(no_place(), |token| item_of_token(token).place);
    let mut alive = Alive::new(alloc, Kind::Spec, first)?;
    tokens_on(alloc, &mut alive, tokens)
}

/// How far the tokens go on with what was begun.
fn tokens_on(alloc: Global, alive: &mut Alive, tokens: &[Token]) -> Result<Front, OutOfMemory>
    ensures { IfOk result (λ front. front ≡ fronts.front_from 0 (token_views tokens.now) (alive_views alive.old)) }
{
    for (count, token) in tokens.iter().enumerate() {
        match token_on(alloc, alive, count, token)? {
            Next::GoesOn => {}
            Next::Found(front) => return Ok(front),
        }
    }
    alive.finish(alloc, tokens.len())
}

/// A token behind so many others.
fn token_on(
    alloc: Global,
    alive: &mut Alive,
    count: usize,
    token: &Token,
) -> Result<Next, OutOfMemory>
    ensures { IfOk result (λ next. (tokens : List TokenOf) → fronts.front_from count (token_view token.now ∷ tokens) (alive_views alive.old)
        ≡ found next (alive_views alive.new) (fronts.front_from (count + 1) tokens)) }
{
    alive.step(alloc, count, item_of_token(token))
}
