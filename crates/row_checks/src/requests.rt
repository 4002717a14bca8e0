// `check SPEC CLASS FLAGS EXPR`: the form of an expression that stands in a class of a specification, or with `-` in the
// expression of a run; or the first refusal. Which flags there are says `scopes.rt`. `time check` with the same words: 1 where
// the expression has a form and 0 where it is refused, and the nanoseconds of the call that tells.

ghost use Rattle.std.specs.Prelude.{◌<◌, ◌^◌, length};
ghost use Rattle.text_answers.specs.Answers.{AreOf};

use crate::forms::say_form;
use crate::scopes::scope_in;
use class_grammar::spec_of_tokens;
use expr_grammar::expr_of_tokens;
use expr_tree::Expr;
use row_answers::say_halt;
use row_values::{nanoseconds, say_time};
use row_words::Line;
use std::rt::Clock;
use std::time::Instant;
use type_check::check_expr;
use type_check::handed::check_scopes::Scope;
use type_check::handed::spec_table::{ClassTable, table_of};
use type_forms::Form;
use vdm_kinds::{Halt, Part, SpecFault};
use vdm_lexer::{Lexeme, lex};
use vdm_names::Names;
use vdm_tree::Spec;

/// More names than any row has.
const MOST: usize = 1_000_000;

/// What is asked of an expression.
#[derive(Clone, Copy)]
enum Asked {
    Form,
    Time,
}

/// Says the form of an expression, or why it is refused.
pub fn answer<R: Clock>(rt: &R, line: &mut Line<'_>) {
    answer_asked(rt, line, Asked::Form);
}

/// Says whether an expression has a form, and how long it took to tell.
pub fn answer_time<R: Clock>(rt: &R, line: &mut Line<'_>) {
    answer_asked(rt, line, Asked::Time);
}

fn answer_asked<R: Clock>(rt: &R, line: &mut Line<'_>, asked: Asked) {
    match Names::new(line.alloc()) {
        Ok(mut names) => answer_text(rt, line, asked, &mut names),
        Err(_) => line.fall_short(),
    }
}

fn answer_text<R: Clock>(rt: &R, line: &mut Line<'_>, asked: Asked, names: &mut Names) {
    let text = line.bytes();
    match lex(line.alloc(), Part::Spec, &text) {
        Ok(lexemes) if names.len() < MOST => answer_lexemes(
            rt, line, asked, names, &text, &lexemes,
        ),
        Ok(_) => line.refuse(),
        Err(halt) => say_halt(line, halt),
    }
}

fn answer_lexemes<R: Clock>(
    rt: &R,
    line: &mut Line<'_>,
    asked: Asked,
    names: &mut Names,
    text: &[u8],
    lexemes: &[Lexeme],
)
    requires lexemes { AreOf text.now lexemes.now }
    requires names { length names.old < 2 ^ 31 }
{
    match spec_of_tokens(line.alloc(), text, lexemes, names) {
        Ok(spec) => answer_spec(rt, line, asked, names, spec),
        Err(halt) => say_halt(line, halt),
    }
}

fn answer_spec<R: Clock>(rt: &R, line: &mut Line<'_>, asked: Asked, names: &mut Names, spec: Spec) {
    match table_of(line.alloc(), spec) {
        Ok(table) => answer_table(rt, line, asked, names, &table),
        Err(halt) => say_halt(line, halt),
    }
}

fn answer_table<R: Clock>(
    rt: &R,
    line: &mut Line<'_>,
    asked: Asked,
    names: &mut Names,
    table: &ClassTable,
) {
    let scope = scope_in(names, line);
    let text = line.bytes();
    match lex(line.alloc(), Part::Expr, &text) {
        Ok(lexemes) if !lexemes.is_empty() && names.len() < MOST => {
            let tree = tree_of(line, names, &text, &lexemes);
            answer_tree(rt, line, asked, names, table, &scope, tree);
        }
        Ok(_) => line.refuse(),
        Err(halt) => say_halt(line, halt),
    }
}

fn tree_of(
    line: &mut Line<'_>,
    names: &mut Names,
    text: &[u8],
    lexemes: &[Lexeme],
) -> Result<Expr, Halt<SpecFault>>
    requires lexemes { AreOf text.now lexemes.now }
    requires some { 0 < length lexemes.now }
    requires names { length names.old < 2 ^ 31 }
{
    let (expr, _) = expr_of_tokens(line.alloc(), text, lexemes, 0, names)?;
    Ok(expr)
}

fn answer_tree<R: Clock>(
    rt: &R,
    line: &mut Line<'_>,
    asked: Asked,
    names: &Names,
    table: &ClassTable,
    scope: &Scope,
    tree: Result<Expr, Halt<SpecFault>>,
) {
    match tree {
        Ok(expr) => answer_expr(rt, line, asked, names, table, scope, &expr),
        Err(halt) => say_halt(line, halt),
    }
}

fn answer_expr<R: Clock>(
    rt: &R,
    line: &mut Line<'_>,
    asked: Asked,
    names: &Names,
    table: &ClassTable,
    scope: &Scope,
    expr: &Expr,
) {
    let began = Instant::now(rt).ok();
    let found = check_expr(line.alloc(), table, scope, expr);
    let taken = nanoseconds(rt, line, began);
    match asked {
        Asked::Form => say_found(line, names, found),
        Asked::Time => say_taken(line, found, taken),
    }
}

fn say_found(line: &mut Line<'_>, names: &Names, found: Result<Form, Halt<SpecFault>>) {
    match found {
        Ok(form) => say_form(line, names, &form),
        Err(halt) => say_halt(line, halt),
    }
}

fn say_taken(line: &mut Line<'_>, found: Result<Form, Halt<SpecFault>>, taken: u64) {
    match found {
        Ok(_) => say_time(line, 1, taken),
        Err(Halt::Of(_)) => say_time(line, 0, taken),
        Err(Halt::OutOfMemory) => line.fall_short(),
    }
}
