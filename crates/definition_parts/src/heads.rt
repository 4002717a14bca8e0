// What a definition begins with: the words of its access, and its name.

ghost use Rattle.std.specs.Prelude.{◌≡◌, ◌∷◌, true, drop, Some, None, MatchOption};
ghost use Rattle.vdm_kinds.specs.declared.place.Place.{Place};
ghost use Rattle.grammar_words.specs.Tokens.{plain};
ghost use Rattle.stmt_reading.specs.Definitions.{behind_level, behind_static, begins_head, head_begun, head_in, level_of, named_head};
ghost use Rattle.leaf_reader.specs.Reads.{Reads};
ghost use Rattle.definition_parts.specs.Parts.{begun_view, head_view, next_level};

use grammar_tokens::Token;
use grammar_words::Word;
use leaf_reader::{NO_TREE, NoTree, Source};
use vdm_kinds::{Access, Halt, Level, Name, Place};

/// What a definition begins with.
#[derive(Clone, Copy, Debug)]
pub struct Head {
    pub access: Access,
    pub name: Name,
    /// Where its name stands.
    pub name_place: Place,
    /// Where the definition begins.
    pub place: Place,
}

/// Whether a definition may begin with the word.
pub fn begins_head(word: Word) -> bool
    ensures { result ≡ begins_head word }
{
    match word {
        Word::Identifier | Word::Static | Word::Private | Word::Protected | Word::Public => true,
        _ => false,
    }
}

/// The level that a word gives.
fn level_of(word: Word) -> Option<Level>
    ensures { result ≡ level_of word }
{
    match word {
        Word::Private => Some(Level::Private),
        Word::Protected => Some(Level::Protected),
        Word::Public => Some(Level::Public),
        _ => None,
    }
}

/// The first token of a head.
enum Begun {
    Named(Name, Place),
    Marked(Word, Place),
}

/// Takes the first token of a head, if a head may begin with its kind.
fn first_of_head(source: &mut Source) -> Option<Begun>
    ensures { MatchOption result (head_in source.old ≡ None) (λ begun. source.old ≡ begun_view begun ∷ source.new) }
{
    match source.take()? {
        Token::Identifier(name, place) => Some(Begun::Named(name, place)),
        Token::Plain(word, place) => Some(Begun::Marked(word, place)),
        _ => None,
    }
}

/// Takes the head of a definition.
pub fn read_head(source: &mut Source) -> Result<Head, Halt<NoTree>>
    ensures { Reads result head_view (head_in source.old) source.new }
{
    match first_of_head(source).ok_or(NO_TREE)? {
        Begun::Named(name, place) => Ok(Head {
            access: Access {
                is_static: false,
                level: Level::Private,
            },
            name,
            name_place: place,
            place,
        }),
        Begun::Marked(word, place) => marked_head(word, place, source),
    }
}

/// Takes a head behind its first word, which stands there.
fn marked_head(word: Word, place: Place, source: &mut Source) -> Result<Head, Halt<NoTree>>
    ensures { Reads result head_view (head_begun (plain word place) source.old) source.new }
{
    match word {
        Word::Static => static_head(place, source),
        Word::Private => levelled_head(Level::Private, place, source),
        Word::Protected => levelled_head(Level::Protected, place, source),
        Word::Public => levelled_head(Level::Public, place, source),
        _ => Err(NO_TREE),
    }
}

/// Takes a head behind a word that gives its level.
fn levelled_head(level: Level, place: Place, source: &mut Source) -> Result<Head, Halt<NoTree>>
    ensures { Reads result head_view (behind_level (Some level) place source.old) source.new }
{
    let is_static = source.take_word(Word::Static).is_some();
    named_head(is_static, level, place, source)
}

/// Takes a head behind `static`.
fn static_head(place: Place, source: &mut Source) -> Result<Head, Halt<NoTree>>
    ensures { Reads result head_view (behind_static place source.old) source.new }
{
    let level = take_level(source);
    named_head(true, level, place, source)
}

/// Takes the level of a static definition, which is private where no word gives one.
#[tactic(auto, using(crate::proofs::Levels::no_level))]
fn take_level(source: &mut Source) -> Level
    ensures { (place : Place) → behind_static place source.old ≡ named_head true result place source.new }
{
    match next_level(source) {
        Some(level) => {
            source.take();
            level
        }
        None => Level::Private,
    }
}

/// The level that the next word gives.
fn next_level(source: &Source) -> Option<Level>
    ensures { result ≡ next_level source.now }
{
    level_of(source.next_word()?)
}

/// Takes the name of a definition, with the access that was told before.
fn named_head(
    is_static: bool,
    level: Level,
    place: Place,
    source: &mut Source,
) -> Result<Head, Halt<NoTree>>
    ensures { Reads result head_view (named_head is_static level place source.old) source.new }
{
    let name = source.name()?;
    Ok(Head {
        access: Access { is_static, level },
        name: name.name,
        name_place: name.place,
        place,
    })
}
