// What of a token says how tokens go on.

ghost use Rattle.std.specs.Prelude.{◌≡◌, None, IsTrue};
ghost use Rattle.grammar_words.specs.declared.word.Word.TheVariants.{OpenRound};
ghost use Rattle.grammar_words.specs.Tokens as tokens;
ghost use Rattle.grammar_tokens.specs.View.{token_view};
ghost use Rattle.stmt_fronts.specs.Fronts.{bare};
ghost use Rattle.stmt_fronts.specs.Viable.{name_of};

use grammar_tokens::Token;
use grammar_words::{PlacedWord, Word};
use vdm_kinds::{Name, Place};

/// What of a token says how tokens go on.
#[derive(Clone, Copy)]
pub(crate) struct Item {
    pub(crate) word: Word,
    /// The name that it is.
    pub(crate) name: Option<Name>,
    pub(crate) place: Place,
}

/// A word without a name, at a place.
fn plain(word: Word, place: Place) -> Item
    ensures word { result.word ≡ word }
    ensures name { result.name ≡ None }
    ensures place { result.place ≡ place }
{
    Item {
        word,
        name: None,
        place,
    }
}

/// Of a word, no name is seen.
pub(crate) fn item_of_word(word: PlacedWord) -> Item
    ensures word { result.word ≡ tokens.word_of (bare word) }
    ensures name { result.name ≡ name_of (bare word) }
    ensures place { result.place ≡ tokens.token_place (bare word) }
{
    plain(word.word, word.place)
}

/// Of a token, its name is seen where it is an identifier.
pub(crate) fn item_of_token(token: &Token) -> Item
    ensures word { result.word ≡ tokens.word_of (token_view token.now) }
    ensures name { result.name ≡ name_of (token_view token.now) }
    ensures place { result.place ≡ tokens.token_place (token_view token.now) }
{
    match token {
        Token::Identifier(name, place) => Item {
            word: Word::Identifier,
            name: Some(*name),
            place: *place,
        },
        Token::Quote(_, place) => plain(Word::Quote, *place),
        Token::Whole(_, place) => plain(Word::Whole, *place),
        Token::Character(_, place) => plain(Word::Character, *place),
        Token::Text(_, place) => plain(Word::Text, *place),
        Token::MakeNamed(_, place) => plain(Word::MakeNamed, *place),
        Token::IsNamed(_, place) => plain(Word::IsNamed, *place),
        Token::Plain(word, place) => plain(*word, *place),
    }
}

impl Item {
    /// Whether it is a `(`.
    pub(crate) fn is_bracket(self) -> bool
        ensures { IsTrue result → (self.word ≡ OpenRound) × (self.name ≡ None) }
    {
        matches!(self.word, Word::OpenRound) && self.name.is_none()
    }
}

/// A `(` at the place.
pub(crate) fn bracket(place: Place) -> Item
    ensures word { result.word ≡ OpenRound }
    ensures name { result.name ≡ None }
    ensures place { result.place ≡ place }
{
    plain(Word::OpenRound, place)
}
