// What is timed.

ghost use Rattle.std.specs.Prelude.{◌<◌, ◌^◌, length};
ghost use Rattle.text_answers.specs.Answers.{AreOf};

use expr_grammar::{expr_of_tokens, pattern_of_tokens, type_of_tokens};
use std::alloc::Global;
use vdm_kinds::{Halt, SpecFault};
use vdm_lexer::Lexeme;
use vdm_names::Names;

/// Reads the tree of a text of this kind, and lets it go; tells the number of the lexeme behind it.
pub(crate) fn read(
    alloc: Global,
    kind: &str,
    text: &[u8],
    lexemes: &[Lexeme],
    names: &mut Names,
) -> Result<usize, Halt<SpecFault>>
    requires lexemes { AreOf text.now lexemes.now }
    requires some { 0 < length lexemes.now }
    requires names { length names.old < 2 ^ 31 }
{
    match kind {
        "types" => read_type(alloc, text, lexemes, names),
        "patterns" => read_pattern(alloc, text, lexemes, names),
        _ => read_expr(alloc, text, lexemes, names),
    }
}

fn read_type(
    alloc: Global,
    text: &[u8],
    lexemes: &[Lexeme],
    names: &mut Names,
) -> Result<usize, Halt<SpecFault>>
    requires lexemes { AreOf text.now lexemes.now }
    requires some { 0 < length lexemes.now }
    requires names { length names.old < 2 ^ 31 }
{
    let (_tree, next) = type_of_tokens(alloc, text, lexemes, 0, names)?;
    Ok(next)
}

fn read_pattern(
    alloc: Global,
    text: &[u8],
    lexemes: &[Lexeme],
    names: &mut Names,
) -> Result<usize, Halt<SpecFault>>
    requires lexemes { AreOf text.now lexemes.now }
    requires some { 0 < length lexemes.now }
    requires names { length names.old < 2 ^ 31 }
{
    let (_tree, next) = pattern_of_tokens(alloc, text, lexemes, 0, names)?;
    Ok(next)
}

fn read_expr(
    alloc: Global,
    text: &[u8],
    lexemes: &[Lexeme],
    names: &mut Names,
) -> Result<usize, Halt<SpecFault>>
    requires lexemes { AreOf text.now lexemes.now }
    requires some { 0 < length lexemes.now }
    requires names { length names.old < 2 ^ 31 }
{
    let (_tree, next) = expr_of_tokens(alloc, text, lexemes, 0, names)?;
    Ok(next)
}
