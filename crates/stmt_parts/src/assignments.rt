// Assignments and calls.

ghost use Rattle.std.specs.Prelude.{◌≡◌, List, [], map, IfOk};
ghost use Rattle.grammar_words.specs.declared.word.Word.TheVariants as word_is;
ghost use Rattle.expr_tree.specs.View.{view_of, boxed_view};
ghost use Rattle.vdm_tree.specs.StmtView.{assignment_view, boxed_stmt, target_view};
ghost use Rattle.abstract_syntax.specs.Statements.{target_place};
ghost use Rattle.grammar_words.specs.Tokens.{Token};
ghost use Rattle.stmt_trees.specs.StmtGrammar.{primary};
ghost use Rattle.stmt_reading.specs.Leaves.{further, list_in, turns_for};
ghost use Rattle.stmt_reading.specs.Statements.{assigned, assignment_in, called, is_application, is_head, simple_in, target_of};
ghost use Rattle.leaf_reader.specs.Reads.{Reads};
ghost use Rattle.stmt_parts.specs.Lists.{added, one_added, assignments_view};
ghost use Rattle.stmt_parts.specs.Whole.{assigning, called_at};

use crate::boxes::boxed;
use crate::targets::target_of;
use expr_tree::Expr;
use grammar_words::Word;
use leaf_reader::{NO_TREE, NoTree, Source};
use std::alloc::Global;
use vdm_kinds::{Halt, OutOfMemory, Place};
use vdm_tree::{Assignment, Stmt, Target};

/// The assignment to what was read before `:=`.
fn assigned(alloc: Global, source: &mut Source, read: Box<Expr>) -> Result<Assignment, Halt<NoTree>>
    ensures { Reads result assignment_view (assigned (target_of (boxed_view read) []) source.old) source.new }
{
    let target = target_of(alloc, read)?.ok_or(NO_TREE)?;
    let value = source.expr(alloc)?;
    Ok(Assignment { target, value })
}

/// A target, `:=` and its value.
fn assignment(alloc: Global, source: &mut Source) -> Result<Assignment, Halt<NoTree>>
    ensures { Reads result assignment_view (assignment_in source.old) source.new }
{
    let read = source.expr(alloc)?;
    source.word(Word::Becomes)?;
    assigned(alloc, source, read)
}

/// One assignment more.
fn push_assignment(
    alloc: Global,
    source: &mut Source,
    assignments: &mut Vec<Assignment>,
) -> Result<(), Halt<NoTree>>
    ensures { Reads result (λ _. map assignment_view assignments.new.items) (one_added (map assignment_view assignments.old.items) (assignment_in source.old)) source.new }
{
    Ok(assignments.push(assignment(alloc, source)?)?)
}

/// At most so many further assignments, each behind a `;`.
fn further_assignments(
    alloc: Global,
    source: &mut Source,
    turns: usize,
    assignments: Vec<Assignment>,
) -> Result<Vec<Assignment>, Halt<NoTree>>
    ensures { Reads result assignments_view (added (map assignment_view assignments.items) (further word_is.Semicolon assignment_in turns source.old)) source.new }
{
    let mut assignments = assignments;
    for _turn in 0..turns {
        let Some(_place) = source.take_word(Word::Semicolon) else {
            return Ok(assignments);
        };
        push_assignment(alloc, source, &mut assignments)?;
    }
    Err(NO_TREE)
}

/// One assignment or more, with a `;` between each two.
pub(crate) fn assignments(
    alloc: Global,
    source: &mut Source,
) -> Result<Vec<Assignment>, Halt<NoTree>>
    ensures { Reads result assignments_view (list_in word_is.Semicolon assignment_in source.old) source.new }
{
    // Each takes a token or more, so that there are turns enough.
    let turns = source.len() + 1;
    let mut assignments = Vec::new(alloc);
    push_assignment(alloc, source, &mut assignments)?;
    further_assignments(alloc, source, turns, assignments)
}

/// What stands before all postfixes.
fn primary(tree: &Expr) -> &Expr
    ensures { view_of result.now ≡ primary (view_of tree.now) }
{
    let mut at = tree;
    loop {
        at = match at {
            Expr::Apply(head, _, _) => head,
            Expr::Subsequence(target, _, _, _) => target,
            Expr::Select(target, _, _, _) => target,
            Expr::SelectOfClass(target, _, _, _, _, _) => target,
            Expr::SelectPart(target, _, _) => target,
            _ => return at,
        };
    }
}

/// Whether it is an application.
fn is_application(tree: &Expr) -> bool
    ensures { result ≡ is_application (view_of tree.now) }
{
    matches!(tree, Expr::Apply(_, _, _))
}

/// Whether a call may begin with it.
fn is_head(tree: &Expr) -> bool
    ensures { result ≡ is_head (view_of tree.now) }
{
    !matches!(
        tree,
        Expr::SequenceEnumeration(_, _)
            | Expr::SequenceComprehension(_, _, _, _, _)
            | Expr::Cases(_, _, _, _)
    )
}

/// Where a call begins, if the expression is one.
fn call_place(tree: &Expr) -> Option<Place>
    ensures { (tokens : List Token) → called (view_of tree.now) tokens ≡ called_at result (view_of tree.now) tokens }
{
    if !is_application(tree) {
        return None;
    }
    let head = primary(tree);
    if is_head(head) {
        Some(head.place())
    } else {
        None
    }
}

/// Where a target begins.
fn target_place(target: &Target) -> Place
    ensures { result ≡ target_place (target_view target.now) }
{
    match target {
        Target::Name(_, _, place) | Target::Qualified(_, _, _, _, place) => *place,
    }
}

/// The statement of one assignment.
fn assigning(alloc: Global, assignment: Assignment) -> Result<Box<Stmt>, OutOfMemory>
    ensures { IfOk result (λ s. boxed_stmt s ≡ assigning (assignment_view assignment)) }
{
    let place = target_place(&assignment.target);
    boxed(
        alloc,
        Stmt::assign(assignment.target, assignment.value, place),
    )
}

/// An assignment or a call, which both begin with what could be an expression.
pub fn simple(alloc: Global, source: &mut Source) -> Result<Box<Stmt>, Halt<NoTree>>
    ensures { Reads result boxed_stmt (simple_in source.old) source.new }
{
    let read = source.expr(alloc)?;
    if source.take_word(Word::Becomes).is_some() {
        let assignment = assigned(alloc, source, read)?;
        return Ok(assigning(alloc, assignment)?);
    }
    let place = call_place(&read).ok_or(NO_TREE)?;
    Ok(boxed(alloc, Stmt::call(read, place))?)
}
