// Whole expressions, patterns and types: each is the longest front that is viable.

ghost use Rattle.std.specs.Prelude.{◌≡◌, IfOk, option_map};
ghost use Rattle.grammar_tokens.specs.View.{token_views};
ghost use Rattle.grammar_trees.specs.Reading.{expr_of, pattern_of};
ghost use Rattle.type_tree.specs.TypeView.{type_view};
ghost use Rattle.expr_tree.specs.View.{boxed_view, pattern_view};
ghost use Rattle.stmt_reading.specs.Leaves.{expr_in, pattern_in, type_in};
ghost use Rattle.leaf_reader.specs.Reads.{Reads, boxed_pattern};

use crate::front::take_front;
use crate::no_tree::{NO_TREE, NoTree};
use crate::source::Source;
use expr_builder::{build_expr, build_pattern};
use expr_tree::{Expr, Pattern};
use grammar_fronts::Kind;
use grammar_tokens::Token;
use std::alloc::Global;
use type_grammar::build_type;
use type_tree::TypeExpr;
use vdm_kinds::{Halt, OutOfMemory};

/// The expression that the tokens are, in a box.
fn boxed_expr(alloc: Global, tokens: Vec<Token>) -> Result<Option<Box<Expr>>, OutOfMemory>
    ensures { IfOk result (λ built. option_map boxed_view built ≡ expr_of (token_views tokens.items)) }
{
    match build_expr(alloc, tokens)? {
        Some(tree) => Ok(Some(Box::new(alloc, tree)?)),
        None => Ok(None),
    }
}

impl Source {
    /// Takes an expression: the longest front of one. After a refusal no more is to be read.
    pub fn expr(&mut self, alloc: Global) -> Result<Box<Expr>, Halt<NoTree>>
        ensures { Reads result boxed_view (expr_in self.old) self.new }
    {
        let front = take_front(alloc, Kind::Expr, self)?;
        boxed_expr(alloc, front)?.ok_or(NO_TREE)
    }

    /// Takes a pattern: the longest front of one. After a refusal no more is to be read.
    pub fn pattern(&mut self, alloc: Global) -> Result<Pattern, Halt<NoTree>>
        ensures { Reads result pattern_view (pattern_in self.old) self.new }
    {
        let front = take_front(alloc, Kind::Pattern, self)?;
        build_pattern(alloc, front)?.ok_or(NO_TREE)
    }

    /// Takes a pattern into a box.
    pub fn boxed_pattern(&mut self, alloc: Global) -> Result<Box<Pattern>, Halt<NoTree>>
        ensures { Reads result boxed_pattern (pattern_in self.old) self.new }
    {
        let pattern = self.pattern(alloc)?;
        Ok(Box::new(alloc, pattern)?)
    }

    /// Takes a type: the longest front of one. After a refusal no more is to be read.
    pub fn type_expr(&mut self, alloc: Global) -> Result<TypeExpr, Halt<NoTree>>
        ensures { Reads result type_view (type_in self.old) self.new }
    {
        let front = take_front(alloc, Kind::TypeExpr, self)?;
        build_type(alloc, &front)?.ok_or(NO_TREE)
    }
}
