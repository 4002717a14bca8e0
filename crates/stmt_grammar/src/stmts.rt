// Statements.

ghost use Rattle.std.specs.Prelude.{◌≡◌, ◌<◌, ◌^◌, length, Ok, Err, IfOk, OnOk};
ghost use Rattle.vdm_kinds.specs.declared.spec_fault.SpecFault.{SpecFault};
ghost use Rattle.vdm_tree.specs.StmtView.{stmt_view};
ghost use Rattle.token_reader.specs.Read.{KeepsNames};
ghost use Rattle.text_answers.specs.Answers.{AreOf};
ghost use Rattle.spec_answers.specs.Answers.{stmt_answer, stmt_names};

use std::alloc::Global;
use stmt_builder::build_stmt;
use stmt_front_reader::front_of_words;
use text_fronts::read_front;
use vdm_kinds::{Halt, SpecFault};
use vdm_lexer::Lexeme;
use vdm_names::Names;
use vdm_tree::Stmt;
use word_reader::words_of;

/// The statement that a text has from the lexeme with this number on, as far as one goes on, and the number of the lexeme
/// behind it. The identifiers of the statement are given to the names in text order; after a refusal there may be more
/// names.
pub fn stmt_of_tokens(
    alloc: Global,
    text: &[u8],
    tokens: &[Lexeme],
    at: usize,
    names: &mut Names,
) -> Result<(Stmt, usize), Halt<SpecFault>>
    requires tokens { AreOf text.now tokens.now }
    requires at { at < length tokens.now }
    requires names { length names.old < 2 ^ 31 }
    ensures tree { IfOk result (λ found. stmt_answer names.old text.now tokens.now at ≡ Ok (stmt_view found.0, found.1)) }
    ensures refused { (fault : SpecFault) → result ≡ Err (Halt.Of fault) → stmt_answer names.old text.now tokens.now at ≡ Err fault }
    ensures names { OnOk result (names.new ≡ stmt_names names.old text.now tokens.now at) }
    ensures kept { KeepsNames names.old names.new }
{
    let words = words_of(alloc, text, tokens, at)?;
    let front = front_of_words(alloc, &words)?;
    let read = read_front(alloc, front, text, tokens, at, &words, names)?;
    match build_stmt(alloc, read.tokens)? {
        Some(tree) => Ok((Box::into_inner(tree), read.next)),
        None => Err(Halt::Of(read.fault)),
    }
}
