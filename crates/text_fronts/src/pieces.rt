// Pieces of lists of words and lexemes.

ghost use Rattle.std.specs.Prelude.{◌≡◌, ◌≤◌, ◌*◌, ◌^◌, ◌<◌, take, drop, length};
ghost use Rattle.grammar_words.specs.Tokens.{width};
ghost use Rattle.text_answers.specs.Answers.{first_place, widths};

use grammar_words::{PlacedWord, Word};
use vdm_kinds::{Part, Place, Sign};
use vdm_lexer::Lexeme;

/// The first so many words, or all where there are fewer.
pub fn taken(words: &[PlacedWord], n: usize) -> &[PlacedWord]
    ensures taken { result.now ≡ take n words.now }
    ensures within { length result.now ≤ length words.now }
{
    if n < words.len() { &words[..n] } else { words }
}

/// The words behind the first so many.
pub fn behind(words: &[PlacedWord], n: usize) -> &[PlacedWord]
    ensures { result.now ≡ drop n words.now }
{
    if n < words.len() { &words[n..] } else { &[] }
}

/// The lexemes behind the first so many.
pub fn lexemes_behind(lexemes: &[Lexeme], n: usize) -> &[Lexeme]
    ensures { result.now ≡ drop n lexemes.now }
{
    if n < lexemes.len() {
        &lexemes[n..]
    } else {
        &[]
    }
}

/// Where the first of words stands.
pub fn first_place(words: &[PlacedWord]) -> Place
    ensures { result ≡ first_place words.now }
{
    match words {
        [first, ..] => first.place,
        [] => Place {
            part: Part::Spec,
            line: 1,
            column: 1,
        },
    }
}

/// Of how many lexemes words are made.
pub fn widths(words: &[PlacedWord]) -> usize
    requires { length words.now < 2 ^ 32 }
    ensures widths { result ≡ widths words.now }
    ensures most { result ≤ 3 * length words.now }
{
    let mut sum = 0;
    for word in words {
        sum += width(word.word);
    }
    sum
}

/// Of how many lexemes a word is made.
fn width(word: Word) -> usize
    ensures width { result ≡ width word }
    ensures most { result ≤ 3 }
{
    match word {
        Word::Operator(Sign::InSet) => 2,
        Word::Operator(Sign::NotInSet) => 3,
        _ => 1,
    }
}
