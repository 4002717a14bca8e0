// The words of a text.

ghost use Rattle.std.specs.Prelude.{◌≡◌, ◌≤◌, ◌-◌, ◌∷◌, length, drop, take, IfOk};
ghost use Rattle.grammar_words.specs.Tokens.{width};
ghost use Rattle.word_reader.specs.Fronts.{front_word};
ghost use Rattle.word_reader.specs.Words.{ends_operand, is_in, is_not, is_set, word_or_end, word_of_lexeme, words_behind, words_from};

use crate::lexeme_word::word_of_lexeme;
use grammar_words::{PlacedWord, Word};
use std::alloc::Global;
use vdm_kinds::{OutOfMemory, Sign};
use vdm_lexer::Lexeme;

/// The words of a text from the lexeme with this number on.
pub fn words_of(
    alloc: Global,
    text: &[u8],
    lexemes: &[Lexeme],
    at: usize,
) -> Result<Vec<PlacedWord>, OutOfMemory>
    ensures { IfOk result (λ words. words.items ≡ words_from text.now lexemes.now at) }
{
    let mut words = Vec::new(alloc);
    let mut ended = false;
    let mut rest = behind(lexemes, at);
    while let [lexeme, others @ ..] = rest {
        let word = front_word(ended, text, *lexeme, others);
        words.push(PlacedWord {
            word,
            place: lexeme.place,
        })?;
        ended = ends_operand(word);
        rest = behind(others, more(word));
    }
    Ok(words)
}

/// The word that a lexeme makes, alone or with those that stand behind it.
fn front_word(ended: bool, text: &[u8], lexeme: Lexeme, behind: &[Lexeme]) -> Word
    ensures { result ≡ front_word ended (word_of_lexeme text.now lexeme) (word_or_end text.now behind.now) (word_or_end text.now (drop 1 behind.now)) }
{
    let word = word_of_lexeme(text, lexeme);
    if is_in(word) && is_set(word_at(text, behind, 0)) {
        Word::Operator(Sign::InSet)
    } else if ended
        && is_not(word)
        && is_in(word_at(text, behind, 0))
        && is_set(word_at(text, behind, 1))
    {
        Word::Operator(Sign::NotInSet)
    } else {
        word
    }
}

/// The word of the lexeme with this number alone, or the end where there is none.
fn word_at(text: &[u8], lexemes: &[Lexeme], at: usize) -> Word
    ensures { result ≡ word_or_end text.now (drop at lexemes.now) }
{
    match behind(lexemes, at) {
        [lexeme, ..] => word_of_lexeme(text, *lexeme),
        [] => Word::TextEnd,
    }
}

/// The lexemes behind the first so many.
fn behind(lexemes: &[Lexeme], n: usize) -> &[Lexeme]
    ensures behind { result.now ≡ drop n lexemes.now }
    ensures within { length result.now ≤ length lexemes.now }
{
    if n < lexemes.len() {
        &lexemes[n..]
    } else {
        &[]
    }
}

/// Of how many lexemes a word is made, but for the first.
fn more(word: Word) -> usize
    ensures { result ≡ width word - 1 }
{
    match word {
        Word::Operator(Sign::InSet) => 1,
        Word::Operator(Sign::NotInSet) => 2,
        _ => 0,
    }
}

/// Whether a word may end an operand.
fn ends_operand(word: Word) -> bool
    ensures { result ≡ ends_operand word }
{
    matches!(
        word,
        Word::Identifier
            | Word::Quote
            | Word::Whole
            | Word::Character
            | Word::Text
            | Word::CloseRound
            | Word::CloseSquare
            | Word::CloseCurly
            | Word::Tilde
            | Word::True
            | Word::False
            | Word::Nil
            | Word::SelfWord
            | Word::Time
            | Word::Undefined
            | Word::Result
            | Word::End
    )
}

/// Whether a word is `in`.
fn is_in(word: Word) -> bool
    ensures { result ≡ is_in word }
{
    matches!(word, Word::In)
}

/// Whether a word is `set`.
fn is_set(word: Word) -> bool
    ensures { result ≡ is_set word }
{
    matches!(word, Word::Set)
}

/// Whether a word is `not`.
fn is_not(word: Word) -> bool
    ensures { result ≡ is_not word }
{
    matches!(word, Word::Operator(Sign::Not))
}
