// What stands before the first statement in a statement.

ghost use Rattle.std.specs.Prelude.{◌≡◌, List, ◌∷◌};
ghost use Rattle.grammar_words.specs.Tokens.{Token as TokenTree, plain};
ghost use Rattle.abstract_syntax.specs.Statements.{StmtTree};
ghost use Rattle.grammar_words.specs.declared.word.Word.TheVariants as word_is;
ghost use Rattle.grammar_tokens.specs.View.{token_view};
ghost use Rattle.stmt_openings.specs.declared.beginning.Beginning.TheVariants as begins;
ghost use Rattle.stmt_reading.specs.Leaves.{Read};
ghost use Rattle.stmt_reading.specs.Statements.{always_in, begun_by, block_in, cases_in_stmt, def_in_stmt, if_in, simple_in, stmt_begun, tixe_in, trap_in};
ghost use Rattle.stmt_openings.specs.Beginnings.{begun_as, begun_with};
ghost use Rattle.stmt_openings.specs.Openings.{Opens, opened};

use crate::beginning::{Beginning, beginning_of};
use crate::header::Header;
use crate::lets::let_opening;
use crate::loops::{for_opening, while_opening};
use crate::opening::Opening;
use grammar_tokens::Token;
use grammar_words::Word;
use leaf_reader::{NO_TREE, NoTree, Source};
use std::alloc::Global;
use stmt_parts::{all_started, boxed, dcls, exited, returned, simple, started, together};
use vdm_kinds::{Halt, Place, Sign};
use vdm_tree::Stmt;

/// The local variables of a block, behind its `(`.
fn block_opening(alloc: Global, source: &mut Source, place: Place) -> Result<Opening, Halt<NoTree>>
    ensures { (one : List TokenTree → Read StmtTree) → Opens result one (block_in one place source.old) source.new }
{
    let turns = source.len() + 1;
    let locals = dcls(alloc, source)?;
    Ok(Opening::Block(turns, locals, place))
}

/// `def p = a in`, behind the word.
fn def_opening(alloc: Global, source: &mut Source, place: Place) -> Result<Opening, Halt<NoTree>>
    ensures { (one : List TokenTree → Read StmtTree) → Opens result one (def_in_stmt one place source.old) source.new }
{
    let pattern = source.boxed_pattern(alloc)?;
    source.word(Word::Operator(Sign::Equal))?;
    let value = source.expr(alloc)?;
    source.word(Word::In)?;
    Ok(Opening::Body(Header::Def(pattern, value, place)))
}

/// `if c then`, behind the word.
fn if_opening(alloc: Global, source: &mut Source, place: Place) -> Result<Opening, Halt<NoTree>>
    ensures { (one : List TokenTree → Read StmtTree) → Opens result one (if_in one place source.old) source.new }
{
    let turns = source.len() + 1;
    let condition = source.expr(alloc)?;
    source.word(Word::Then)?;
    Ok(Opening::If(turns, condition, place))
}

/// `cases e:`, behind the word.
fn cases_opening(alloc: Global, source: &mut Source, place: Place) -> Result<Opening, Halt<NoTree>>
    ensures { (one : List TokenTree → Read StmtTree) → Opens result one (cases_in_stmt one place source.old) source.new }
{
    let turns = source.len() + 1;
    let subject = source.expr(alloc)?;
    source.word(Word::Colon)?;
    Ok(Opening::Cases(turns, subject, place))
}

/// `trap p with`, behind the word.
fn trap_opening(alloc: Global, source: &mut Source, place: Place) -> Result<Opening, Halt<NoTree>>
    ensures { (one : List TokenTree → Read StmtTree) → Opens result one (trap_in one place source.old) source.new }
{
    let pattern = source.boxed_pattern(alloc)?;
    source.word(Word::With)?;
    Ok(Opening::Trap(pattern, place))
}

/// `tixe {`, behind the word.
fn tixe_opening(source: &mut Source, place: Place) -> Result<Opening, Halt<NoTree>>
    ensures { (one : List TokenTree → Read StmtTree) → Opens result one (tixe_in one place source.old) source.new }
{
    source.word(Word::OpenCurly)?;
    Ok(Opening::Tixe(place))
}

/// `always`, behind which nothing stands before a statement.
fn always_opening(place: Place) -> Opening
    ensures { (one : List TokenTree → Read StmtTree) (tokens : List TokenTree) → always_in one place tokens ≡ opened one result tokens }
{
    Opening::Always(place)
}

/// `|| (`, behind the word.
fn parallel_opening(source: &mut Source, place: Place) -> Result<Opening, Halt<NoTree>>
    ensures { (one : List TokenTree → Read StmtTree) → Opens result one (begun_as one begins.Parallel word_is.DoubleBar place source.old) source.new }
{
    source.word(Word::OpenRound)?;
    Ok(Opening::Parallel(place))
}

/// A block, or a call whose first part stands in brackets, behind the `(`.
fn bracket_opening(
    alloc: Global,
    source: &mut Source,
    word: Word,
    place: Place,
) -> Result<Opening, Halt<NoTree>>
    ensures { (one : List TokenTree → Read StmtTree) → Opens result one (begun_as one begins.Bracket word place source.old) source.new }
{
    if source.begins_call() {
        return word_first(alloc, source, word, place);
    }
    block_opening(alloc, source, place)
}

/// The assignment or the call that a word begins.
fn word_first(
    alloc: Global,
    source: &mut Source,
    word: Word,
    place: Place,
) -> Result<Opening, Halt<NoTree>>
    ensures { (one : List TokenTree → Read StmtTree) → Opens result one (simple_in (plain word place ∷ source.old)) source.new }
{
    source.put_back(Token::Plain(word, place))?;
    Ok(Opening::Whole(simple(alloc, source)?))
}

/// What stands before the first statement in the statement that begins so with the word.
fn opening_as(
    alloc: Global,
    source: &mut Source,
    begins: Beginning,
    word: Word,
    place: Place,
) -> Result<Opening, Halt<NoTree>>
    ensures { (one : List TokenTree → Read StmtTree) → Opens result one (begun_as one begins word place source.old) source.new }
{
    match begins {
        Beginning::Bracket => bracket_opening(alloc, source, word, place),
        Beginning::Let => let_opening(alloc, source, place),
        Beginning::Def => def_opening(alloc, source, place),
        Beginning::If => if_opening(alloc, source, place),
        Beginning::Cases => cases_opening(alloc, source, place),
        Beginning::While => while_opening(alloc, source, place),
        Beginning::For => for_opening(alloc, source, place),
        Beginning::Trap => trap_opening(alloc, source, place),
        Beginning::Tixe => tixe_opening(source, place),
        Beginning::Always => Ok(always_opening(place)),
        Beginning::Parallel => parallel_opening(source, place),
        Beginning::Simple => word_first(alloc, source, word, place),
        Beginning::Atomic => Ok(Opening::Whole(together(alloc, source, place)?)),
        Beginning::Return => Ok(Opening::Whole(returned(alloc, source, place)?)),
        Beginning::Exit => Ok(Opening::Whole(exited(alloc, source, place)?)),
        Beginning::Start => Ok(Opening::Whole(started(alloc, source, place)?)),
        Beginning::StartList => Ok(Opening::Whole(all_started(alloc, source, place)?)),
        Beginning::Skip => Ok(Opening::Whole(boxed(alloc, Stmt::Skip(place))?)),
        Beginning::Error => Ok(Opening::Whole(boxed(alloc, Stmt::Error(place))?)),
    }
}

/// The word of a token that is no more than a word.
fn plain_of(token: &Token) -> Option<(Word, Place)>
    ensures { (one : List TokenTree → Read StmtTree) (tokens : List TokenTree) → stmt_begun one (token_view token.now) tokens ≡ begun_with one (token_view token.now) result tokens }
{
    match token {
        Token::Plain(word, place) => Some((*word, *place)),
        Token::Identifier(_, _) => None,
        Token::Quote(_, _) => None,
        Token::Whole(_, _) => None,
        Token::Character(_, _) => None,
        Token::Text(_, _) => None,
        Token::MakeNamed(_, _) => None,
        Token::IsNamed(_, _) => None,
    }
}

/// The assignment or the call that a token begins.
fn token_first(alloc: Global, source: &mut Source, token: Token) -> Result<Opening, Halt<NoTree>>
    ensures { (one : List TokenTree → Read StmtTree) → Opens result one (simple_in (token_view token ∷ source.old)) source.new }
{
    source.put_back(token)?;
    Ok(Opening::Whole(simple(alloc, source)?))
}

/// What stands before the first statement in a statement that a token begins.
fn opening_behind(alloc: Global, source: &mut Source, token: Token) -> Result<Opening, Halt<NoTree>>
    ensures { (one : List TokenTree → Read StmtTree) → Opens result one (stmt_begun one (token_view token) source.old) source.new }
{
    match plain_of(&token) {
        Some((word, place)) => opening_as(alloc, source, beginning_of(word), word, place),
        None => token_first(alloc, source, token),
    }
}

/// What stands before the first statement in a statement. After a refusal no more is to be read.
pub fn read_opening(alloc: Global, source: &mut Source) -> Result<Opening, Halt<NoTree>>
    ensures { (one : List TokenTree → Read StmtTree) → Opens result one (begun_by one source.old) source.new }
{
    let token = source.take().ok_or(NO_TREE)?;
    opening_behind(alloc, source, token)
}
