// Whole statements.

ghost use Rattle.std.specs.Prelude.{◌≡◌, Some, IfOk, option_map};
ghost use Rattle.grammar_tokens.specs.View.{token_views};
ghost use Rattle.vdm_tree.specs.StmtView.{boxed_stmt};
ghost use Rattle.stmt_reading.specs.Statements.{all_read, nesting_limit, stmt_in, stmt_of};
ghost use Rattle.leaf_reader.specs.Reads.{Reads};

use crate::statements::statement;
use grammar_tokens::Token;
use leaf_reader::{NoTree, Source};
use std::alloc::Global;
use vdm_kinds::{Halt, OutOfMemory};
use vdm_tree::Stmt;

/// So many statements may be nested.
const NESTING_LIMIT: u32 = 200;

/// Takes a statement. After a refusal no more is to be read.
pub fn read_stmt(alloc: Global, source: &mut Source) -> Result<Box<Stmt>, Halt<NoTree>>
    ensures { Reads result boxed_stmt (stmt_in nesting_limit source.old) source.new }
{
    statement(alloc, source, NESTING_LIMIT)
}

/// The statement that the tokens are, from the first to the last; none where they are no statement.
pub fn build_stmt(alloc: Global, tokens: Vec<Token>) -> Result<Option<Box<Stmt>>, OutOfMemory>
    ensures { IfOk result (λ built. option_map boxed_stmt built ≡ stmt_of (token_views tokens.items)) }
{
    let mut source = Source::new(tokens);
    match read_stmt(alloc, &mut source) {
        Ok(statement) => Ok(whole(statement, &source)),
        Err(Halt::Of(NoTree)) => Ok(None),
        Err(Halt::OutOfMemory) => Err(OutOfMemory),
    }
}

/// The statement, if no token is left.
fn whole(statement: Box<Stmt>, source: &Source) -> Option<Box<Stmt>>
    ensures { option_map boxed_stmt result ≡ all_read (Some (boxed_stmt statement, source.now)) }
{
    if source.len() == 0 {
        Some(statement)
    } else {
        None
    }
}
