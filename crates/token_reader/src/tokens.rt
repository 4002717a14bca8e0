// The tokens of the words of a text.

ghost use Rattle.std.specs.Prelude.{◌≡◌, ◌+◌, ◌<◌, ◌≤◌, ◌^◌, ◌-◌, drop, length, IfOk, OnOk};
ghost use Rattle.grammar_tokens.specs.View.{token_view, token_views};
ghost use Rattle.grammar_words.specs.Tokens.{width};
ghost use Rattle.token_reader.specs.Read.{AreReadable, KeepsNames, first_kind, first_name, first_slice, names_behind, token_of, tokens_from, with_text};

use crate::token::token_of;
use grammar_tokens::Token;
use grammar_words::{PlacedWord, Word};
use std::alloc::Global;
use vdm_kinds::{OutOfMemory, Sign};
use vdm_lexer::{LexKind, Lexeme};
use vdm_names::Names;
use word_reader::slice_of;

/// The tokens of words, which the lexemes begin with. What they are named by is given to the names in text order. The
/// names that there were stay in front, also where memory is wanting.
pub fn tokens_of(
    alloc: Global,
    text: &[u8],
    lexemes: &[Lexeme],
    words: &[PlacedWord],
    names: &mut Names,
) -> Result<Vec<Token>, OutOfMemory>
    requires room { length names.old + length words.now < 2 ^ 32 }
    requires readable { AreReadable text.now lexemes.now }
    ensures tokens { IfOk result (λ tokens. token_views tokens.items ≡ tokens_from names.old text.now lexemes.now words.now) }
    ensures names { OnOk result (names.new ≡ names_behind names.old text.now lexemes.now words.now) }
    ensures kept { KeepsNames names.old names.new }
{
    let mut tokens = Vec::new(alloc);
    let mut rest = lexemes;
    for word in words {
        let token = first_token(alloc, text, rest, *word, names)?;
        tokens.push(token)?;
        rest = behind(rest, width(word.word));
    }
    Ok(tokens)
}

/// The token of a word that lexemes begin with.
fn first_token(
    alloc: Global,
    text: &[u8],
    lexemes: &[Lexeme],
    word: PlacedWord,
    names: &mut Names,
) -> Result<Token, OutOfMemory>
    requires room { length names.old < 2 ^ 32 }
    requires readable { AreReadable text.now lexemes.now }
    ensures token { IfOk result (λ token. token_view token ≡ token_of names.old (first_kind lexemes.now) word.word (first_slice text.now lexemes.now) word.place) }
    ensures names { OnOk result (names.new ≡ with_text names.old (first_name text.now lexemes.now word)) }
    ensures kept { KeepsNames names.old names.new }
    ensures room { length names.new ≤ length names.old + 1 }
{
    match lexemes {
        [lexeme, ..] => token_of(alloc, lexeme.kind, word, slice_of(text, *lexeme), names),
        [] => Ok(Token::Plain(word.word, word.place)),
    }
}

/// The lexemes behind the first so many.
fn behind(lexemes: &[Lexeme], n: usize) -> &[Lexeme]
    ensures { result.now ≡ drop n lexemes.now }
{
    if n < lexemes.len() {
        &lexemes[n..]
    } else {
        &[]
    }
}

/// Of how many lexemes a word is made.
fn width(word: Word) -> usize
    ensures { result ≡ width word }
{
    match word {
        Word::Operator(Sign::InSet) => 2,
        Word::Operator(Sign::NotInSet) => 3,
        _ => 1,
    }
}
