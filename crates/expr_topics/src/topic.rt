// What kinds of expressions there are to the checker.

ghost use Rattle.std.specs.Prelude.{◌≡◌};
ghost use Rattle.expr_tree.specs.View.{view_of};
ghost use Rattle.expr_topics.specs.Topics.{topic_of, names_something as is_names, is_plain as is_plain, is_call as is_calls, is_selection as is_selections, is_test as is_tests, has_the_form_inside as is_inside, binds_or_chooses as is_choices};

use expr_tree::Expr;

/// What an expression is to the checker.
#[derive(Clone, Copy)]
pub enum Topic {
    /// A name or a word that may be refused where it stands.
    Names,
    /// A literal, a word that may stand anywhere, or brackets.
    Plain,
    /// A call of what is known at once, or of what stands before the arguments.
    Calls,
    /// A member of what stands before it.
    Selections,
    /// A test of a type or a class that is named.
    Tests,
    /// What stands inside binds has the node's form.
    Inside,
    /// What binds otherwise, or chooses.
    Choices,
    /// Parts in one scope, and what follows from their forms.
    Parts,
}

/// What the expression is to the checker.
pub fn expr_topic(expr: &Expr) -> Topic
    ensures { result ≡ topic_of (view_of expr.now) }
{
    if names_something(expr) {
        Topic::Names
    } else if is_plain(expr) {
        Topic::Plain
    } else if is_call(expr) {
        Topic::Calls
    } else if is_selection(expr) {
        Topic::Selections
    } else if is_test(expr) {
        Topic::Tests
    } else if has_the_form_inside(expr) {
        Topic::Inside
    } else if binds_or_chooses(expr) {
        Topic::Choices
    } else {
        Topic::Parts
    }
}

fn names_something(expr: &Expr) -> bool
    ensures { result ≡ is_names (view_of expr.now) }
{
    match expr {
        Expr::Name(_, _)
        | Expr::Qualified(_, _, _, _)
        | Expr::Old(_, _)
        | Expr::SelfObject(_)
        | Expr::Time(_)
        | Expr::Result(_)
        | Expr::History(_, _, _) => true,
        _ => false,
    }
}

fn is_plain(expr: &Expr) -> bool
    ensures { result ≡ is_plain (view_of expr.now) }
{
    match expr {
        Expr::Literal(_, _) | Expr::Undefined(_) | Expr::Bracketed(_, _) | Expr::EmptyMap(_) =>
            true,
        _ => false,
    }
}

fn is_call(expr: &Expr) -> bool
    ensures { result ≡ is_calls (view_of expr.now) }
{
    match expr {
        Expr::MakeRecord(_, _, _) | Expr::New(_, _, _, _) | Expr::Apply(_, _, _) => true,
        _ => false,
    }
}

fn is_selection(expr: &Expr) -> bool
    ensures { result ≡ is_selections (view_of expr.now) }
{
    match expr {
        Expr::Select(_, _, _, _) | Expr::SelectOfClass(_, _, _, _, _, _) => true,
        _ => false,
    }
}

fn is_test(expr: &Expr) -> bool
    ensures { result ≡ is_tests (view_of expr.now) }
{
    match expr {
        Expr::IsOfType(_, _, _)
        | Expr::IsOfNamed(_, _, _)
        | Expr::IsOfClass(_, _, _, _)
        | Expr::IsOfBaseClass(_, _, _, _) => true,
        _ => false,
    }
}

fn has_the_form_inside(expr: &Expr) -> bool
    ensures { result ≡ is_inside (view_of expr.now) }
{
    match expr {
        Expr::SetComprehension(_, _, _, _)
        | Expr::MapComprehension(_, _, _, _, _)
        | Expr::SequenceComprehension(_, _, _, _, _)
        | Expr::LetBe(_, _, _, _)
        | Expr::ForAll(_, _, _)
        | Expr::Exists(_, _, _)
        | Expr::ExistsOne(_, _, _) => true,
        _ => false,
    }
}

fn binds_or_chooses(expr: &Expr) -> bool
    ensures { result ≡ is_choices (view_of expr.now) }
{
    match expr {
        Expr::LetIn(_, _, _)
        | Expr::DefIn(_, _, _, _)
        | Expr::IfElse(_, _, _, _, _)
        | Expr::Cases(_, _, _, _)
        | Expr::Iota(_, _, _) => true,
        _ => false,
    }
}
