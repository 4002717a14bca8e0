// Words by their numbers.

ghost use Rattle.std.specs.Prelude.{◌≡◌};
ghost use Rattle.grammar_words.specs.Tokens.{word_of};
ghost use Rattle.grammar_tokens.specs.View.{token_view};
ghost use Rattle.stmt_reading.specs.Leaves.{is_word, sign_number, word_number};

use grammar_tokens::Token;
use grammar_words::Word;
use vdm_kinds::Sign;

/// Whether both are the same one of the words that statements and classes are told by.
pub fn is_word(a: Word, b: Word) -> bool
    ensures { result ≡ is_word a b }
{
    let number = word_number(a);
    number > 0 && number == word_number(b)
}

/// The word that a token is to the grammar.
pub fn word_of(token: &Token) -> Word
    ensures { result ≡ word_of (token_view token.now) }
{
    match token {
        Token::Identifier(_, _) => Word::Identifier,
        Token::Quote(_, _) => Word::Quote,
        Token::Whole(_, _) => Word::Whole,
        Token::Character(_, _) => Word::Character,
        Token::Text(_, _) => Word::Text,
        Token::MakeNamed(_, _) => Word::MakeNamed,
        Token::IsNamed(_, _) => Word::IsNamed,
        Token::Plain(word, _) => *word,
    }
}

/// The number of a sign, 0 where it has none.
fn sign_number(sign: Sign) -> u32
    ensures { result ≡ sign_number sign }
{
    match sign {
        Sign::Equal => 1,
        Sign::InSet => 2,
        Sign::Times => 3,
        Sign::Not => 4,
        Sign::Implies => 5,
        _ => 0,
    }
}

/// The number of a word, 0 where it has none.
fn word_number(word: Word) -> u32
    ensures { result ≡ word_number word }
{
    match word {
        Word::Operator(sign) => sign_number(sign),
        Word::OpenRound => 6,
        Word::CloseRound => 7,
        Word::OpenCurly => 8,
        Word::CloseCurly => 9,
        Word::Comma => 10,
        Word::Semicolon => 11,
        Word::Colon => 12,
        Word::DoubleColon => 13,
        Word::Becomes => 14,
        Word::DoubleEqual => 15,
        Word::DoubleArrow => 16,
        Word::Arrow => 17,
        Word::TotalArrow => 18,
        Word::MapsTo => 19,
        Word::Be => 20,
        Word::St => 21,
        Word::In => 22,
        Word::Then => 23,
        Word::Elseif => 24,
        Word::Else => 25,
        Word::Others => 26,
        Word::End => 27,
        Word::Of => 28,
        Word::To => 29,
        Word::Dcl => 30,
        Word::Do => 31,
        Word::All => 32,
        Word::By => 33,
        Word::With => 34,
        Word::Class => 35,
        Word::Is => 36,
        Word::Subclass => 37,
        Word::Types => 38,
        Word::Values => 39,
        Word::Instance => 40,
        Word::Variables => 41,
        Word::Functions => 42,
        Word::Operations => 43,
        Word::Thread => 44,
        Word::Sync => 45,
        Word::Per => 46,
        Word::Mutex => 47,
        Word::Periodic => 48,
        Word::Inv => 49,
        Word::Pre => 50,
        Word::Post => 51,
        Word::Measure => 52,
        Word::Static => 53,
        Word::Private => 54,
        Word::Protected => 55,
        Word::Public => 56,
        Word::Yet => 57,
        Word::Specified => 58,
        Word::Responsibility => 59,
        Word::Dot => 60,
        Word::DotNumber => 61,
        _ => 0,
    }
}
