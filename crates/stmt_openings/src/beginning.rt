// Which statement a word begins.

ghost use Rattle.std.specs.Prelude.{◌≡◌};
ghost use Rattle.stmt_openings.specs.Beginnings.{beginning_of};

use grammar_words::Word;

/// Which statement a word begins.
#[derive(Clone, Copy, Debug, PartialEq, Eq)]
pub enum Beginning {
    /// A block, or a call whose first part stands in brackets.
    Bracket,
    Atomic,
    Return,
    Exit,
    Let,
    Def,
    If,
    Cases,
    While,
    For,
    Trap,
    Tixe,
    Always,
    Parallel,
    Start,
    StartList,
    Skip,
    Error,
    /// An assignment or a call.
    Simple,
}

/// Which statement a word begins.
pub(crate) fn beginning_of(word: Word) -> Beginning
    ensures { result ≡ beginning_of word }
{
    match word {
        Word::OpenRound => Beginning::Bracket,
        Word::Atomic => Beginning::Atomic,
        Word::Return => Beginning::Return,
        Word::Exit => Beginning::Exit,
        Word::Let => Beginning::Let,
        Word::Def => Beginning::Def,
        Word::If => Beginning::If,
        Word::Cases => Beginning::Cases,
        Word::While => Beginning::While,
        Word::For => Beginning::For,
        Word::Trap => Beginning::Trap,
        Word::Tixe => Beginning::Tixe,
        Word::Always => Beginning::Always,
        Word::DoubleBar => Beginning::Parallel,
        Word::Start => Beginning::Start,
        Word::StartList => Beginning::StartList,
        Word::Skip => Beginning::Skip,
        Word::Error => Beginning::Error,
        _ => Beginning::Simple,
    }
}
