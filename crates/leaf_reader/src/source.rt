// Tokens that are still to be read.

ghost use Rattle.std.specs.Prelude.{◌≡◌, ◌<◌, [], ◌∷◌, drop, length, reverse, MatchOption, OnOk};
ghost use Rattle.grammar_tokens.specs.View.{token_view, token_views};
ghost use Rattle.stmt_reading.specs.Leaves.{word_in};
ghost use Rattle.stmt_reading.specs.Statements.{is_there};
ghost use Rattle.leaf_reader.specs.Reads.{Finds, Reads, Takes, next_word, same};

use crate::closers::Closers;
use crate::no_tree::{NO_TREE, NoTree};
use crate::words::{is_word, word_of};
use grammar_tokens::Token;
use grammar_words::Word;
use std::marker::Model;
use vdm_kinds::{Halt, OutOfMemory, Place};

/// The tokens that are still to be read, which clauses see as a list, the next at its front.
#[derive(Drop)]
pub struct Source {
    // The next is the last.
    pub(crate) items: Vec<Token>,
    pub(crate) closers: Closers,
}

impl Model for Source {
    ghost use Rattle.std.specs.Prelude.{List, reverse};
    ghost use Rattle.std.specs.Coded.{coded_list};
    ghost use Rattle.grammar_words.specs.Tokens.{Token};
    ghost use Rattle.leaf_reader.specs.TokenCode.{token_code};
    ghost use Rattle.grammar_tokens.specs.View.{token_views};

    ghost Value = { List Token };

    ghost coded = { coded_list token_code };

    ghost use Rattle.leaf_reader.specs.Closers.{AreCounts};

    ghost view = { λ s. reverse (token_views s.items.items) };

    ghost invariant = { λ s. AreCounts s.closers.counts.items (token_views s.items.items) };
}

/// Where the word stands, if it comes next in tokens of which the next is the last.
pub(crate) fn place_of(word: Word, items: &[Token]) -> Option<Place>
    ensures { Finds result same (word_in word (reverse (token_views items.now))) (drop 1 (reverse (token_views items.now))) }
{
    match items.last()? {
        Token::Plain(found, place) if is_word(word, *found) => Some(*place),
        _ => None,
    }
}

impl Source {
    /// All of these tokens are still to be read. Where there is no memory to count them, brackets take longer to read.
    pub fn new(tokens: Vec<Token>) -> Source
        ensures { result ≡ token_views tokens.items }
    {
        let mut items = tokens;
        items.reverse();
        let closers = Closers::new(*items.allocator(), &items);
        Source { items, closers }
    }

    /// How many tokens there are.
    pub fn len(&self) -> usize
        ensures length { result ≡ length self.now }
        ensures bounded { result < usize.MAX }
    {
        self.items.len()
    }

    /// The next token.
    pub(crate) fn next(&self) -> Option<&Token>
        ensures { MatchOption result (self.now ≡ []) (λ token. self.now ≡ token_view token.now ∷ drop 1 self.now) }
    {
        self.items.last()
    }

    /// Goes on behind the next token.
    pub(crate) fn skip(&mut self)
        ensures { self.new ≡ drop 1 self.old }
    {
        self.items.pop();
    }

    /// Takes the next token.
    pub fn take(&mut self) -> Option<Token>
        ensures { MatchOption result ((self.old ≡ []) × (self.new ≡ [])) (λ token. self.old ≡ token_view token ∷ self.new) }
    {
        self.items.pop()
    }

    /// The token comes next, before all others.
    pub fn put_back(&mut self, token: Token) -> Result<(), OutOfMemory>
        ensures { OnOk result (self.new ≡ token_view token ∷ self.old) }
    {
        self.closers.put(self.items.len(), word_of(&token));
        Ok(self.items.push(token)?)
    }

    /// The word of the next token.
    pub fn next_word(&self) -> Option<Word>
        ensures { result ≡ next_word self.now }
    {
        let token = self.next()?;
        Some(word_of(token))
    }

    /// Whether the word comes next.
    pub fn is_next(&self, word: Word) -> bool
        ensures { result ≡ is_there (word_in word self.now) }
    {
        place_of(word, &self.items).is_some()
    }

    /// Takes the word where it comes next, and gives its place. Else nothing changes.
    pub fn take_word(&mut self, word: Word) -> Option<Place>
        ensures { Takes result same (word_in word self.old) self.old self.new }
    {
        let place = place_of(word, &self.items)?;
        self.skip();
        Some(place)
    }

    /// Takes the word, and gives its place.
    pub fn word(&mut self, word: Word) -> Result<Place, Halt<NoTree>>
        ensures { Reads result same (word_in word self.old) self.new }
    {
        self.take_word(word).ok_or(NO_TREE)
    }
}
