// How far a text is read.

ghost use Rattle.std.specs.Prelude.{◌<◌, ◌^◌, length};
ghost use Rattle.text_answers.specs.Answers.{AreOf};

use class_grammar::spec_of_tokens;
use std::alloc::Global;
use stmt_grammar::stmt_of_tokens;
use vdm_kinds::{Halt, SpecFault};
use vdm_lexer::Lexeme;
use vdm_names::Names;

/// Reads the tree that a text begins with, where the kind is `statement`, or is as a whole, and lets it go; tells the number of
/// the lexeme behind it.
pub fn read(
    alloc: Global,
    kind: &str,
    text: &[u8],
    lexemes: &[Lexeme],
    names: &mut Names,
) -> Result<usize, Halt<SpecFault>>
    requires lexemes { AreOf text.now lexemes.now }
    requires some { 0 < length lexemes.now }
    requires names { length names.old < 2 ^ 31 }
{
    match kind {
        "statement" => read_stmt(alloc, text, lexemes, names),
        _ => read_spec(alloc, text, lexemes, names),
    }
}

fn read_stmt(
    alloc: Global,
    text: &[u8],
    lexemes: &[Lexeme],
    names: &mut Names,
) -> Result<usize, Halt<SpecFault>>
    requires lexemes { AreOf text.now lexemes.now }
    requires some { 0 < length lexemes.now }
    requires names { length names.old < 2 ^ 31 }
{
    let (_tree, next) = stmt_of_tokens(alloc, text, lexemes, 0, names)?;
    Ok(next)
}

fn read_spec(
    alloc: Global,
    text: &[u8],
    lexemes: &[Lexeme],
    names: &mut Names,
) -> Result<usize, Halt<SpecFault>>
    requires lexemes { AreOf text.now lexemes.now }
    requires some { 0 < length lexemes.now }
    requires names { length names.old < 2 ^ 31 }
{
    let _spec = spec_of_tokens(alloc, text, lexemes, names)?;
    Ok(lexemes.len() - 1)
}
